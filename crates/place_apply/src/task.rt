ghost use Rattle.std.specs.Prelude.{◌≡◌};
ghost use Rattle.place_apply.specs.Drafts.{frame_at};

use ag_headers::Agfl;
use place_plan::Ask;
use sblock::{Frame, Span};

// What stands for no block where a sibling is named.
pub(crate) const NO_BLOCK: u32 = 0xffff_ffff;

// An edit, the free list that it takes blocks from, and the log sequence number of its new blocks.
#[derive(Clone, Copy)]
pub(crate) struct Task<R> {
    pub ask: Ask<R>,
    pub list: Agfl,
    pub lsn: u64,
}

// A block that was made: how many records or entries it has, and their keys, none of no records.
#[derive(Clone, Copy)]
pub(crate) struct Part<Q> {
    pub block: u32,
    pub count: u16,
    pub span: Option<Span<Q>>,
}

// What stands in the place of a block: it alone, or it and a block behind it.
#[derive(Clone, Copy)]
pub(crate) struct Parts<Q> {
    pub first: Part<Q>,
    pub second: Option<Part<Q>>,
}

// What the header of a new block is made of.
pub(crate) fn frame_of<R>(task: &Task<R>) -> Frame
    ensures { result ≡ frame_at task.now }
{
    let uuid = task.ask.site.uuid;
    Frame {
        group: task.ask.site.group,
        first: task.ask.site.first,
        uuid,
        lsn: task.lsn,
    }
}

ghost use Rattle.std.specs.Prelude.{◌≡◌, ◌≢◌, ◌+◌, ◌<◌, ◌≤◌, ℕ, List, suc, length, true, All};
ghost use Rattle.sblock.specs.Area.{child_of, with_child};
ghost use Rattle.sblock.specs.Kinds.{leaf_most_of, node_most_of};
ghost use Rattle.bulk_load.specs.Leaf.{empty_area, with_records};
ghost use Rattle.bulk_load.specs.Loaded.{AreKeys, AreEntries, HasRecords, Has, with_span, with_entries, area_bytes};
ghost use Rattle.bulk_load.specs.Shapes.{width, start, begin, count, HasLevel};

use crate::keys::{first_record, keys_below, number_of, part};
use crate::rows::Row;
use sblock::{RecKind, Span, put_child};

// The bytes of a block behind its header.
pub(crate) const AREA: usize = 4040;

// An area of zeros.
#[tactic(auto, unfolding(crate::specs::Leaf::empty_area))]
pub(crate) fn blank_area() -> [u8; 4040]
    ensures { result ≡ empty_area }
{
    [0; AREA]
}

// Writes the records of a leaf.
pub(crate) fn put_records<K: RecKind>(area: &mut [u8], recs: &[K::Rec])
    requires whole { length area.old ≡ 4040 }
    requires room { length recs.now ≤ leaf_most_of K.form.kind }
    ensures has { HasRecords K.form recs.now area.new }
    ensures exact { area.new ≡ with_records K.form recs.now 0 area.old }
{
    for (i, rec) in recs.iter().enumerate() {
        K::put_record(area, i, rec);
    }
}

// Writes the keys of entry `e` of a node, where there are any.
fn put_span<K: RecKind>(area: &mut [u8], e: usize, span: &Option<Span<K::Key>>)
    requires whole { length area.old ≡ 4040 }
    requires room { e < node_most_of K.form.kind }
    ensures written { area.new ≡ with_span K.form area.old e span.now }
    ensures keys { AreKeys K.form (K.form.key_at area.new e) (K.form.high_key_at area.new e) span.now }
    ensures low { (k : ℕ) → k < node_most_of K.form.kind → k ≢ e → K.form.key_at area.new k ≡ K.form.key_at area.old k }
    ensures high { (k : ℕ) → k < node_most_of K.form.kind → k ≢ e → K.form.high_key_at area.new k ≡ K.form.high_key_at area.old k }
    ensures pointers { (k : ℕ) → k < node_most_of K.form.kind → child_of K.form.kind area.new k ≡ child_of K.form.kind area.old k }
{
    match span {
        Some(span) => K::put_keys(area, e, &span.low, &span.high),
        None => {}
    }
}

// Writes entry `e` of a node. The others stay.
fn put_entry<K: RecKind>(area: &mut [u8], e: usize, span: &Option<Span<K::Key>>, child: u32)
    requires whole { length area.old ≡ 4040 }
    requires room { e < node_most_of K.form.kind }
    ensures written { area.new ≡ with_child K.form.kind (with_span K.form area.old e span.now) e child }
    ensures child { child_of K.form.kind area.new e ≡ child }
    ensures keys { AreKeys K.form (K.form.key_at area.new e) (K.form.high_key_at area.new e) span.now }
    ensures low { (k : ℕ) → k < node_most_of K.form.kind → k ≢ e → K.form.key_at area.new k ≡ K.form.key_at area.old k }
    ensures high { (k : ℕ) → k < node_most_of K.form.kind → k ≢ e → K.form.high_key_at area.new k ≡ K.form.high_key_at area.old k }
    ensures pointers { (k : ℕ) → k < node_most_of K.form.kind → k ≢ e → child_of K.form.kind area.new k ≡ child_of K.form.kind area.old k }
{
    put_span::<K>(area, e, span);
    put_child(K::kind(), area, e, child);
}

// Writes the entries of a node for `count` blocks of a level from block `first` on, which stand in the
// claimed blocks from number `start + first` on.
fn put_entries<K: RecKind>(
    area: &mut [u8],
    list: &[K::Rec],
    claimed: &[u32],
    level: u32,
    first: u64,
    count: u16,
)
    requires whole { length area.old ≡ 4040 }
    requires room { count ≤ node_most_of K.form.kind }
    requires level { HasLevel K.form.kind (length list.now) level }
    requires within { first + count ≤ width K.form.kind (length list.now) level }
    requires claimed { start K.form.kind (length list.now) (suc level) ≤ length claimed.now }
    requires ends { All (λ r. K.form.has_end r ≡ true) list.now }
    ensures read { AreEntries K.form list.now claimed.now level first area.new count }
    ensures written { area.new ≡ with_entries K.form list.now claimed.now level first count area.old }
{
    let row = Row::of_level(number_of(list), K::kind(), level);
    for e in 0..count {
        let block = first + u64::from(e);
        let span = keys_below::<K>(list, level, block);
        let child = claimed[(row.start + block) as usize];
        put_entry::<K>(area, e as usize, &span, child);
    }
}

// What leaf `i` has behind its header.
fn leaf_area<K: RecKind>(list: &[K::Rec], i: u64) -> [u8; 4040]
    requires { i < width K.form.kind (length list.now) 0 }
    ensures has { (claimed : List ℕ) → Has K.form list.now claimed 0 i result }
    ensures exact { (claimed : List ℕ) → result ≡ area_bytes K.form list.now claimed 0 i }
{
    let records = number_of(list);
    let from = first_record(records, K::kind(), 0, i);
    let to = first_record(records, K::kind(), 0, i + 1);
    let mut area = blank_area();
    put_records::<K>(&mut area, part(list, from as usize, to as usize));
    area
}

// What block `i` of the level above `level` has behind its header.
fn node_area<K: RecKind>(list: &[K::Rec], claimed: &[u32], level: u32, i: u64) -> [u8; 4040]
    requires level { HasLevel K.form.kind (length list.now) (suc level) }
    requires within { i < width K.form.kind (length list.now) (suc level) }
    requires claimed { start K.form.kind (length list.now) (suc level) ≤ length claimed.now }
    requires ends { All (λ r. K.form.has_end r ≡ true) list.now }
    ensures has { Has K.form list.now claimed.now (suc level) i result }
    ensures exact { result ≡ area_bytes K.form list.now claimed.now (suc level) i }
{
    let row = Row::of_level(number_of(list), K::kind(), level + 1);
    let mut area = blank_area();
    put_entries::<K>(
        &mut area,
        list,
        claimed,
        level,
        row.first(i),
        row.share(i) as u16,
    );
    area
}

// What block `i` of a level has behind its header.
pub(crate) fn area_for<K: RecKind>(
    list: &[K::Rec],
    claimed: &[u32],
    level: u32,
    i: u64,
) -> [u8; 4040]
    requires level { HasLevel K.form.kind (length list.now) level }
    requires within { i < width K.form.kind (length list.now) level }
    requires claimed { start K.form.kind (length list.now) level ≤ length claimed.now }
    requires ends { All (λ r. K.form.has_end r ≡ true) list.now }
    ensures has { Has K.form list.now claimed.now level i result }
    ensures exact { result ≡ area_bytes K.form list.now claimed.now level i }
{
    if level == 0 {
        return leaf_area::<K>(list, i);
    }
    node_area::<K>(list, claimed, level - 1, i)
}

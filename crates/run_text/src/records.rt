// The lines of records that are missing or extra.
ghost use Rattle.std.specs.Prelude.{◌≡◌, [], ◌∷◌, IfOk, string_bytes};
ghost use Rattle.std.specs.Fmt.{decimal};
ghost use Rattle.run_text.specs.Lines.{line_from};
ghost use Rattle.rmap_recs.specs.Words.{offset_of as offset_of_word};
ghost use Rattle.run_text.specs.Names.{kind_name as kind_name_of};
ghost use Rattle.run_text.specs.Masks.{mask_digits};
ghost use Rattle.run_text.specs.Owners.{owner_name as owner_name_of, flag_letters as flag_letters_of};
ghost use Rattle.run_text.specs.Report.{kind_of_rec, rec_words, span_words, ino_words};

use crate::names::kind_name;
use fs_model::AnyRec;
use ino_recs::InoRec;
use rmap_recs::{ATTRIBUTE, FORK_TREE, OFFSETS, Owner, RmapRec, UNWRITTEN};
use sblock::Kind;
use span_recs::{RefcRec, SpanRec};
use std::alloc::{AllocError, Global};

// An owner's word; a number that is nobody's is shown itself.
#[tactic(auto, unfolding(crate::specs::Owners::owner_name))]
fn owner_name(alloc: Global, number: u64) -> Result<String, AllocError>
    ensures { IfOk result (λ text. string_bytes text ≡ owner_name_of number) }
{
    match Owner::from_number(number) {
        Some(owner) => format!(in alloc; "{owner}"),
        None => format!(in alloc; "{number}"),
    }
}

#[tactic(auto, unfolding(crate::specs::Owners::flag_letters))]
fn flag_letters(word: u64) -> &'static str
    ensures { result.now ≡ flag_letters_of word }
{
    let attribute = word & ATTRIBUTE > 0;
    let tree = word & FORK_TREE > 0;
    let unwritten = word & UNWRITTEN > 0;
    match (attribute, tree, unwritten) {
        (false, false, false) => "-",
        (false, false, true) => "u",
        (false, true, false) => "t",
        (false, true, true) => "tu",
        (true, false, false) => "a",
        (true, false, true) => "au",
        (true, true, false) => "at",
        (true, true, true) => "atu",
    }
}

fn offset_of(word: u64) -> u64
    ensures { result ≡ offset_of_word word }
{
    word % OFFSETS
}

#[tactic(auto, unfolding(crate::specs::Masks::mask_digits))]
fn mask_text(alloc: Global, mask: u64) -> Result<String, AllocError>
    ensures { IfOk result (λ text. string_bytes text ≡ mask_digits mask) }
{
    format!(in alloc; "{mask:016x}")
}

// The numbers of a record up to the end of its line.
fn rmap_numbers(alloc: Global, rec: &RmapRec) -> Result<String, AllocError>
    ensures { IfOk result (λ text. string_bytes text ≡ line_from (rec_words (AnyRec.Rmap rec.now))) }
{
    let start = rec.start;
    let count = rec.count;
    let owner = owner_name(alloc, rec.owner)?;
    let offset = offset_of(rec.word);
    let flags = flag_letters(rec.word);
    format!(in alloc; "{start} {count} {owner} {offset} {flags}\n")
}

fn ino_numbers(alloc: Global, rec: &InoRec) -> Result<String, AllocError>
    ensures { IfOk result (λ text. string_bytes text ≡ line_from (ino_words rec.now)) }
{
    let start = rec.startino;
    let holes = rec.holemask;
    let count = rec.count;
    let free = rec.freecount;
    let mask = mask_text(alloc, rec.free)?;
    format!(in alloc; "{start} {holes} {count} {free} {mask}\n")
}

fn span_numbers(alloc: Global, rec: &SpanRec) -> Result<String, AllocError>
    ensures { IfOk result (λ text. string_bytes text ≡ line_from (span_words rec.now)) }
{
    let start = rec.start;
    let count = rec.count;
    format!(in alloc; "{start} {count}\n")
}

fn refc_numbers(alloc: Global, rec: &RefcRec) -> Result<String, AllocError>
    ensures { IfOk result (λ text. string_bytes text ≡ line_from (rec_words (AnyRec.Refc rec.now))) }
{
    let start = rec.start;
    let count = rec.count;
    let refcount = rec.refcount;
    format!(in alloc; "{start} {count} {refcount}\n")
}

fn numbers(alloc: Global, rec: &AnyRec) -> Result<String, AllocError>
    ensures { IfOk result (λ text. string_bytes text ≡ line_from (rec_words rec.now)) }
{
    match rec {
        AnyRec::Bno(span) => span_numbers(alloc, span),
        AnyRec::Cnt(span) => span_numbers(alloc, span),
        AnyRec::Rmap(mapping) => rmap_numbers(alloc, mapping),
        AnyRec::Refc(counted) => refc_numbers(alloc, counted),
        AnyRec::Ino(chunk) => ino_numbers(alloc, chunk),
        AnyRec::Fino(chunk) => ino_numbers(alloc, chunk),
    }
}

fn kind_of(rec: &AnyRec) -> Kind
    ensures { result ≡ kind_of_rec rec.now }
{
    match rec {
        AnyRec::Bno(_) => Kind::Bno,
        AnyRec::Cnt(_) => Kind::Cnt,
        AnyRec::Rmap(_) => Kind::Rmap,
        AnyRec::Refc(_) => Kind::Refc,
        AnyRec::Ino(_) => Kind::Ino,
        AnyRec::Fino(_) => Kind::Fino,
    }
}

/// The line of a record of group `group` that an index lacks or has beside what is derived:
/// `sort` is `missing` or `extra`.
#[tactic(auto, using(crate::proofs::RecordLemmas::in_front))]
pub fn record_line(
    alloc: Global,
    group: u32,
    sort: &str,
    rec: &AnyRec,
) -> Result<String, AllocError>
    ensures { IfOk result (λ text. string_bytes text
        ≡ line_from (decimal group ∷ kind_name_of (kind_of_rec rec.now) ∷ sort.now ∷ rec_words rec.now)) }
{
    let kind = kind_name(kind_of(rec));
    let numbers = numbers(alloc, rec)?;
    format!(in alloc; "{group} {kind} {sort} {numbers}")
}

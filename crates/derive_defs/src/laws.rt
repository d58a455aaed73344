ghost use Rattle.derive_defs.specs.ByCount.{OnlyByCount};
ghost use Rattle.derive_defs.specs.Free.{OnlyFree};
ghost use Rattle.derive_defs.specs.Mappings.{MappingsFit};
ghost use Rattle.derive_defs.specs.Shared.{OnlyShared};

/// A law: what `free_of` answers is the only list with a gap between two records in which exactly
/// the blocks below the length lie that no mapping covers.
pub fn only_free()
    ensures { OnlyFree }
{}

/// A law: what `shared_of` answers is the only list of maximal records in which exactly the blocks
/// lie that at least two shareable mappings have, each with the number of these.
pub fn only_shared()
    ensures { OnlyShared }
{}

/// A law: what `by_count` answers is the only list of the same records that rises by count and then
/// start.
pub fn only_by_count()
    ensures { OnlyByCount }
{}

/// A law: records in the order and the range of the reverse mapping btree meet the conditions of the
/// derivations.
pub fn mappings_fit()
    ensures { MappingsFit }
{}

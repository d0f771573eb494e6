// Theorems about a packing, each the contract of a function without code.
ghost use Rattle.packing.specs.Laws.{PackedPartsStand, RecordIsTold, PackedIdsAreBelow, AdmissibleStaysFinite, PackedIsFinite, BuiltGridIsPacked, AcceptedLeavesRest, RefusedLeavesAll, EarlierGridStays, EachGridStands, PackingIndexIsTold};

/// After an accepted call each of the four lists stands at its offset, and the converted positions at theirs.
pub fn packed_parts()
    ensures { PackedPartsStand }
{}

/// What the record of an accepted call tells: vertices, side, five offsets, and where the next grid goes.
pub fn record_tells()
    ensures { RecordIsTold }
{}

/// After an accepted call every id in cells and triples is below the count of vertices.
pub fn packed_ids_below()
    ensures { PackedIdsAreBelow }
{}

/// Each component of a position that row 5 lets pass converts to a finite number, so that every packed float is one.
pub fn packed_is_finite()
    ensures component { AdmissibleStaysFinite }
    ensures packed { PackedIsFinite }
{}

/// A grid that the builder made is refused for want of room alone.
pub fn built_grid_is_packed()
    ensures { BuiltGridIsPacked }
{}

/// What stands before the taken places and behind those written stays, and after a refusal everything does.
pub fn rest_stays()
    ensures accepted { AcceptedLeavesRest }
    ensures refused { RefusedLeavesAll }
{}

/// A grid that was packed earlier stays whole under a further call, and under a list of them.
pub fn earlier_grid_stays()
    ensures call { EarlierGridStays }
    ensures list { EachGridStands }
{}

/// What the index of a refusal tells.
pub fn refusals_tell()
    ensures { PackingIndexIsTold }
{}

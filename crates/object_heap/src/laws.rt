//! Laws on what the calls of the heap keep.
ghost use Rattle.object_heap.specs.Laws.{NewFits, RefillFits, ChargeFits, PlaceFits, AddFits, RenewFits, PutFits, GrowFits, ExtendFits, CutFits, MapPutFits, MapExtendFits, MapCutFits, MapCutAtFits, AppendFits, SpliceFits, ThrowFits, AnswersFit, ItemsFit, ValuesFit, CapturesFit};

/// Laws that callers may cite: each call keeps the fit of the heap.
pub fn heap_keeps_fit()
    ensures new { NewFits }
    ensures refill { RefillFits }
    ensures charge { ChargeFits }
    ensures place { PlaceFits }
    ensures add { AddFits }
    ensures renew { RenewFits }
    ensures put { PutFits }
    ensures grow { GrowFits }
    ensures extend { ExtendFits }
    ensures cut { CutFits }
    ensures map_put { MapPutFits }
    ensures map_extend { MapExtendFits }
    ensures map_cut { MapCutFits }
    ensures map_cut_at { MapCutAtFits }
    ensures append { AppendFits }
    ensures splice { SpliceFits }
    ensures throw { ThrowFits }

    // What a member's effect keeps, its call keeps.
    ensures answers { AnswersFit }

    // What is read of a heap that fits, fits.
    ensures items { ItemsFit }
    ensures values { ValuesFit }
    ensures captures { CapturesFit }
{}

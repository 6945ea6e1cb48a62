//! Laws of fields, masks and sign extension.

ghost use Rattle.ctr_bits.specs.FieldLaws.{GetAfterPut, PutLeavesOthers, PutOfGet, LastPutCounts, PutFits};
ghost use Rattle.ctr_bits.specs.MaskLaws.{NarrowerMaskCounts, MaskTwice, FieldOfMasked, FieldInMask, FieldOffMask};
ghost use Rattle.ctr_bits.specs.MaskLaws.{PutLeavesMask, PutStaysWithin, MergedOnMask, MergedOffMask, MergedStaysWithin, MergedFits, FieldOfMergedIn, FieldOfMergedOff};
ghost use Rattle.ctr_bits.specs.SextLaws.{ExtendedFits, ExtendedIsNumber};

/// The laws of fields, of every word and every place: a proof and no work.
pub fn field_laws()
    ensures get_after_put { GetAfterPut }
    ensures put_leaves_others { PutLeavesOthers }
    ensures put_of_get { PutOfGet }
    ensures last_put_counts { LastPutCounts }
    ensures put_fits { PutFits }
{}

/// The laws of masks and of writes under a mask, of every word: a proof and no work.
pub fn mask_laws()
    ensures mask_twice { MaskTwice }
    ensures narrower_mask_counts { NarrowerMaskCounts }
    ensures field_of_masked { FieldOfMasked }
    ensures field_in_mask { FieldInMask }
    ensures field_off_mask { FieldOffMask }
    ensures put_leaves_mask { PutLeavesMask }
    ensures put_stays_within { PutStaysWithin }
    ensures merged_on_mask { MergedOnMask }
    ensures merged_off_mask { MergedOffMask }
    ensures merged_stays_within { MergedStaysWithin }
    ensures merged_fits { MergedFits }
    ensures field_of_merged_in { FieldOfMergedIn }
    ensures field_of_merged_off { FieldOfMergedOff }
{}

/// The laws of sign extension, of every width: a proof and no work.
pub fn sext_laws()
    ensures extended_is_number { ExtendedIsNumber }
    ensures extended_fits { ExtendedFits }
{}

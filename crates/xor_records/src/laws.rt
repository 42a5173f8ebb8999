// What holds of the pages that images and records stand for, each law the contract of a function that does
// nothing.
ghost use Rattle.xor_records.specs.Laws.{EachBitHasItsParity, NoOrder, AnyParts, EndedToggles, Compensated};
ghost use Rattle.xor_records.specs.Laws.{OpenIsNotThere, AtMostTheStamp, OpenIsTakenBack, EndToggles};
ghost use Rattle.xor_records.specs.Laws.{AnotherEndLeaves, LaterImageIsSame};

/// A bit is the image's where an even number of the page's owed records has it set, and the opposite where
/// an odd number has.
pub fn each_bit_has_its_parity()
    ensures { EachBitHasItsParity }
{}

/// The pages are the same for every order of the records.
pub fn pages_have_no_order()
    ensures { NoOrder }
{}

/// The pages are the same for every split of the records into parts: each part is toggled on zeros, and
/// what comes of the parts is toggled on the images.
pub fn pages_come_of_any_parts()
    ensures { AnyParts }
{}

/// One more change above its page's stamp, of a transaction that has ended, toggles its bits.
pub fn a_change_of_an_ended_transaction_toggles()
    ensures { EndedToggles }
{}

/// A change and its compensation above their page's stamp, of a transaction that has ended, leave the page.
pub fn a_change_is_undone_by_its_compensation()
    ensures { Compensated }
{}

/// A change above its page's stamp, of a transaction that hasn't ended, leaves the page.
pub fn a_change_of_an_open_transaction_is_not_there()
    ensures { OpenIsNotThere }
{}

/// A change at or below its page's stamp, of a transaction that has ended, leaves the page, whose image has
/// it.
pub fn a_change_at_most_the_stamp_is_there()
    ensures { AtMostTheStamp }
{}

/// A change at or below its page's stamp, of a transaction that hasn't ended, is taken back.
pub fn a_change_of_an_open_transaction_is_taken_back()
    ensures { OpenIsTakenBack }
{}

/// The first record that says that a transaction committed or ended toggles all its changes: those above
/// their page's stamp come, and the others are no longer taken back.
pub fn an_end_toggles_its_transaction()
    ensures { EndToggles }
{}

/// Another record that says so leaves all pages.
pub fn another_end_leaves()
    ensures { AnotherEndLeaves }
{}

/// A page is the same by a later image, whose bytes have the changes up to the later stamp too.
pub fn a_later_image_gives_the_same_page()
    ensures { LaterImageIsSame }
{}

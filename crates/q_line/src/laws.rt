//! What holds of the grammar as a whole. A law is the contract of a function that does nothing.

ghost use Rattle.q_line.specs.Laws.{FaultsAreLeftmost, SpellingsAreRead};
ghost use Rattle.q_line.specs.OtherSpellings.{FieldsChangePlaces, KeysChangePlaces, NamesAreFree, OptionsChangePlaces, OptionsStandOnce};

/// A fault is at the leftmost word that does not fit, and is the same whatever comes after that word. If every word fits, the fault is a number of
/// the line's priomap that names no band, or else a word that is missing at the end.
pub fn faults_are_leftmost()
    ensures { FaultsAreLeftmost }
{}

/// Each line whose parts are in range can be written, with any name for the device, and is read as itself: every object and verb, every kind with
/// whichever of its options are given, every packet, and every frame that some bytes have.
pub fn spellings_are_read()
    ensures { SpellingsAreRead }
{}

/// Any two options of a qdisc may change places, wherever they are among the others, and so may any number of them: the line says the same. An
/// option is a name with its value, a flag alone, or `priomap` with its 16 numbers.
pub fn options_change_places()
    ensures { OptionsChangePlaces }
{}

/// Any two keys of a filter may change places, including its class, and so may any number of them: the line says the same. Two addresses are of one
/// version in either order.
pub fn keys_change_places()
    ensures { KeysChangePlaces }
{}

/// Any two options of a packet may change places, and so may any number of them: the line says the same.
pub fn fields_change_places()
    ensures { FieldsChangePlaces }
{}

/// Options, words of a head and verbs may be written by any of their names, and the line says the same, or has the same fault: `buffer` and
/// `maxburst` for `burst`, `pref` for `prio`, `flowid` for `classid`, `delete` for `del`, `list` and `ls` for `show`.
pub fn names_are_free()
    ensures { NamesAreFree }
{}

/// An option that was given already is a fault where it is named a second time, by the same name or by another of its names (`noecn` after `ecn`,
/// `latency` after `limit`, `maxburst` after `burst`), whatever is between them and after them.
pub fn options_stand_once()
    ensures { OptionsStandOnce }
{}

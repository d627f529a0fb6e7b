//! That records which stand for rules with services mean what the rules mean as they are written. Each law is a
//! contract; no function does anything.
ghost use Rattle.fx_services.specs.Standing.{ReadUpdatesAreSound, RecordsStandOn, SoundnessIsKept, WrittenVerdictIsKept};

/// What is read of a resource is what the other laws ask of an update. It does nothing.
pub fn read_resources_are_sound()
    ensures { ReadUpdatesAreSound }
{}

/// After an update, what stands for the resources as they are written is what stood for them after the update that
/// stands for it. It does nothing.
pub fn records_stand_on()
    ensures { RecordsStandOn }
{}

/// What is asked of the resources as they are written holds after each update that is read. It does nothing.
pub fn soundness_is_kept()
    ensures { SoundnessIsKept }
{}

/// Of records that stand for them, the policy reference says of each first packet what the resources say as they are
/// written, and by the places of their rules. It does nothing.
pub fn written_verdict_is_kept()
    ensures { WrittenVerdictIsKept }
{}

use crate::slot::Slot;
use std::collections::{BTreeMap, BTreeSet};
use xt_base::FileId;

/// The files that an OSD has met, by their order, and beside them those that are busy: those that a message has concerned. All
/// others are rows of the records, and rest, so that a Wake looks at the busy ones alone. A busy file may have no slot: the step
/// on the first message for it failed then.
pub struct MetFiles {
    pub slots: BTreeMap<FileId, Slot>,
    pub busy: BTreeSet<FileId>,
}

// A derived drop is part of the code of each function that may drop a value. This one is proved once.
impl Drop for MetFiles {
    fn drop(self) {
        let MetFiles { slots: _, busy: _ } = self;
    }
}

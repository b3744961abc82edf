//! What holds of the fates of files.
ghost use Rattle.orphan_sweep.specs.Laws.{FilesFit, OthersStay};

/// Of the files of an OSD exactly those stay that aren't orphans, where the orphans among them are removed.
pub fn others_stay()
    ensures { OthersStay }
{}

/// The files that records speak of can be named in records: their fates can be given to a sweep.
pub fn judged_files_fit()
    ensures { FilesFit }
{}

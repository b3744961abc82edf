ghost use Rattle.std.specs.Prelude.{◌≡◌, List, map};
ghost use Rattle.xt_messages.specs.Limits.{FitsRecord};
ghost use Rattle.xt_messages.specs.declared.record.Record.{Record};
ghost use Rattle.xt_protocol.specs.Folds.{fold_of, logged_of, widened};

/// Records say what the same records say with each old kind widened to the one that is written now, and record the same requests.
pub fn old_kinds_say_the_same()
    ensures fold { (records : List Record) → fold_of (map widened records) ≡ fold_of records }
    ensures logged { (records : List Record) →
        logged_of (map widened records) ≡ map widened (logged_of records) }
    ensures limits { (rec : Record) → FitsRecord rec → FitsRecord (widened rec) }
{}

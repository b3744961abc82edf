ghost use Rattle.std.specs.Prelude.{◌≡◌, List, ℕ, OnOk, OnErr};
ghost use Rattle.node_links.specs.Streams.{Puts};
ghost use Rattle.xt_base.specs.Faults.{Rose};
ghost use Rattle.schedule_lines.specs.Fronts.{PutsFront};

use node_links::Sink;
use xt_base::Failed;

/// Puts the whole piece, in as many goes as the sink takes. After an `Err` a front of it was put.
pub fn put_all<K: Sink>(out: &mut K, piece: &[u8]) -> Result<(), Failed>
    ensures whole { OnOk result (Puts (K.held out.old) (K.held out.new) piece.now) }
    ensures sound { OnOk result (K.fault_count out.new ≡ K.fault_count out.old) }
    ensures front { OnErr result (PutsFront (K.held out.old) (K.held out.new) piece.now) }
    ensures failed { OnErr result (Rose (K.fault_count out.old) (K.fault_count out.new)) }
{
    let mut place = 0;
    while place < piece.len() {
        match out.put(&piece[place..]) {
            Ok(count) => place += count,
            Err(Failed) => return Err(Failed),
        }
    }
    Ok(())
}

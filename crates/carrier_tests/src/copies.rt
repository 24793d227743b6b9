// What one carrier holds goes into another, whatever carriers they are.
ghost use Rattle.std.specs.Prelude.{◌≡◌, ◌≤◌, true, length, is_ok, OnOk};
ghost use Rattle.carrier.specs.Meaning.{Carried};
ghost use Rattle.carrier_tests.specs.Copies.{AllFramed};

use carrier::{Carrier, PutFault};
use psi::packet::LENGTH;

// Puts the packets in their order, up to the first that is refused. With places enough for packets none is.
pub fn copy_all<F: Carrier, T: Carrier>(from: &F, to: &mut T) -> Result<(), PutFault>
    ensures all { OnOk result (Carried (F.Carrier.meaning from.now).packets (T.Carrier.meaning to.old) (T.Carrier.meaning to.new)) }
    ensures enough { AllFramed (F.Carrier.meaning from.now).packets → length (F.Carrier.meaning from.now).packets ≤ (T.Carrier.meaning to.old).free → is_ok result ≡ true }
{
    let mut packet = [0; LENGTH];
    // A carrier lends no packets: each is copied into a place, by its number.
    for i in 0..from.held() {
        let _ = from.read(i, &mut packet);
        to.put(&packet)?;
    }
    Ok(())
}

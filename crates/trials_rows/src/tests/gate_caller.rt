//! How a caller of a gate reasons: from the contracts of the public calls alone.
ghost use Rattle.std.specs.Prelude.{◌≡◌, ◌<◌, ◌≤◌, true};
ghost use Rattle.percpu_gate.specs.Calls.{holding};

use percpu_gate::{Gate, Pass, Start, Tried};
use std::process::Abort;
use std::test::Fail;

/// Tries for a reference, and if it is given, takes a second one, which `try_get` always gives to a pass that holds one, whatever the
/// control does meanwhile. Once both are put, the pass holds none. The contracts of the calls say all that this contract needs.
fn given_again<const W: usize>(gate: &Gate<W>, pass: &mut Pass<W>) -> bool
    requires own { pass.old.gate ≡ gate.now }
    requires slots { 0 < gate.now.slots }
    requires none { pass.old.view.standing ≡ holding 0 }
    ensures { (result ≡ true) × (pass.new.view.standing ≡ holding 0) }
{
    match pass.try_get(gate, 0) {
        Tried::Given => {
            let again = pass.try_get(gate, 0) == Tried::Given;
            pass.put(gate, 0, 2);
            again && pass.held() == 0
        }
        Tried::Refused(_) => pass.held() == 0,
    }
}

#[test]
fn given_once_given_again(rt: HostRuntime) -> Result<(), Fail> {
    let (gate, _control, mut passes) = Gate::<0>::new(rt.alloc(), 1, 1, Start::Atomic, [])?;
    assert!(rt; given_again(&gate, &mut passes[0]));
    Ok(())
}

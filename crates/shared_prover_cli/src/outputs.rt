ghost use Rattle.std.specs.Prelude.{map, IfOk};
ghost use Rattle.cairo_model.specs.Certificate.Acceptance.{MachineAccepts, SpanHolds};

use cairo_model::{Cert, felt_below};
use goldi_field::Felt;
use std::alloc::{AllocError, Global};

/// The numbers of an accepted certificate's output span, in order.
pub fn outputs_of(alloc: Global, cert: &Cert) -> Result<Vec<Felt>, AllocError>
    requires { MachineAccepts cert.now }
    ensures { IfOk result (λ outputs. SpanHolds cert.now.cells cert.now.output (map (λ f. f.number) outputs.items)) }
{
    let mut outputs = Vec::new(alloc);
    for address in cert.output.start.value()..cert.output.stop.value() {
        outputs.push(cert.cells.get(felt_below(address)).unwrap())?;
    }
    Ok(outputs)
}

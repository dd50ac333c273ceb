//! What the rules ask of trees that are built.
ghost use Rattle.std.specs.Prelude.{◌≡◌};
ghost use Rattle.gs_grammar.specs.Parts as spec;

use gs_build_base::parts::is_single;
use gs_grammar::trees::{Parameter, Parameters};

/// Whether the parameters are a receiver: one parameter, with at most one name.
pub fn is_receiver(params: &Parameters) -> bool
    ensures { result ≡ spec.is_receiver params.now }
{
    match params.list.as_slice() {
        [Parameter::Plain(_)] => true,
        [Parameter::Named(names, _)] => is_single(names),
        _ => false,
    }
}

// A model of a drawing.
ghost use Rattle.std.specs.Prelude.{◌≡◌, length, IfOk};
ghost use Rattle.plan_core.specs.Lawful.{Lawful};
ghost use Rattle.cnf_core.specs.Assignment.{SatisfiesAll};
ghost use Rattle.cnf_core.specs.Truths.{assignment};
ghost use Rattle.track_order.specs.Order.{is_above};
ghost use Rattle.drawing_cnf.specs.Stands.{StandsFor};
ghost use Rattle.drawing_cnf.specs.Encoding.{encoded_vars};
ghost use Rattle.drawing_cnf.specs.Whole.{IsWhole};

use cnf_core::Truths;
use drawing_cnf::Encoded;
use plan_core::OutOfMemory;
use plan_geometry::Drawing;
use std::alloc::Global;

/// A model of the formula, bounds included, that means a lawful drawing. `decode` gives the drawing again.
pub fn encode_drawing(alloc: Global, e: &Encoded, d: &Drawing) -> Result<Truths, OutOfMemory>
    requires whole { IsWhole e.now }
    requires lawful { Lawful e.now.graph (is_above e.now.order) e.now.grid d.now }
    ensures vars { IfOk result (λ m. length m ≡ e.now.formula.vars) }
    ensures model { IfOk result (λ m. SatisfiesAll (assignment m) e.now.formula.clauses) }
    ensures stands { IfOk result (λ m. StandsFor (assignment m) e.now.graph (encoded_vars e.now) d.now) }
{
    let mut m = Truths::all_false(alloc, e.formula().vars())?;
    e.put(d, &mut m);
    Ok(m)
}

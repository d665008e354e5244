// The clauses that count moved nodes, in a formula of their own.
ghost use Rattle.std.specs.Prelude.{◌≡◌, ◌≤◌, ◌<◌, ◌⊎◌, [], ℕ, length, IfOk, OnOk, IsErrOf, MatchOption};
ghost use Rattle.cnf_core.specs.declared.limits.TheConstants.{VARS, ROOM};
ghost use Rattle.cnf_core.specs.Clause.{words_of};
ghost use Rattle.drawing_cnf.specs.Whole.{IsWhole};
ghost use Rattle.drawing_cnf.specs.Layout.{layout_of};
ghost use Rattle.search_moved.specs.Told.{AreNodes, IsCounting, FormulaPasses, count_clauses_behind, size_with};

use cnf_core::{CnfFault, Formula};
use drawing_cnf::{Encoded, add_moved_count};
use edge_shape::NodeVars;
use plan_core::{NodeNo, OutOfMemory, Point};
use search_least::MinFault;
use std::alloc::Global;

/// The column and the row of each node, by number.
fn node_list(alloc: Global, encoded: &Encoded) -> Result<Vec<NodeVars>, OutOfMemory>
    ensures count { IfOk result (λ v. length v.items ≡ length encoded.now.graph.nodes) }
    ensures each { IfOk result (λ v. AreNodes encoded.now v.items (length encoded.now.graph.nodes)) }
{
    let mut nodes = Vec::new(alloc);
    let end = encoded.graph().nodes();
    for k in 0..end {
        nodes.push(encoded.node(NodeNo(k)))?;
    }
    Ok(nodes)
}

/// Adds the variables of the drawings' formula, and then the count's variables and clauses.
fn add_count(
    alloc: Global,
    encoded: &Encoded,
    former: &[Option<Point>],
    f: &mut Formula,
) -> Result<(), CnfFault>
    requires whole { IsWhole encoded.now }
    requires bounds { encoded.now.bounds ≡ [] }
    requires same { length former.now ≡ length encoded.now.graph.nodes }
    requires none { f.old.vars ≡ 0 }
    requires empty { f.old.clauses ≡ [] }
    ensures vars { OnOk result (f.new.vars ≡ size_with encoded.now former.now) }
    ensures clauses { OnOk result (f.new.clauses ≡ count_clauses_behind encoded.now former.now) }
    ensures room { IsErrOf result CnfFault.Room →
        (VARS < size_with encoded.now former.now)
        ⊎ (f.old.room < words_of (count_clauses_behind encoded.now former.now)) }
{
    // what the types keep
    let _ = (encoded.graph().nodes(), encoded.grid().width());
    let nodes = node_list(alloc, encoded)?;
    let vars = encoded.formula().vars();
    let _ = f.new_vars(vars)?;
    match add_moved_count(alloc, f, &nodes, former) {
        Ok(_) => Ok(()),
        Err(fault) => Err(fault),
    }
}

/// The count's clauses in a formula of their own, if there is room for them beside those of the drawings.
pub(crate) fn counting(
    alloc: Global,
    encoded: &Encoded,
    former: &[Option<Point>],
    room: u32,
) -> Result<Option<Formula>, MinFault>
    requires whole { IsWhole encoded.now }
    requires bounds { encoded.now.bounds ≡ [] }
    requires same { length former.now ≡ length encoded.now.graph.nodes }
    requires room { room ≤ ROOM }
    ensures formula { IfOk result (λ o. MatchOption o (FormulaPasses (layout_of encoded.now) former.now room)
        (IsCounting (layout_of encoded.now) former.now room)) }
    ensures cause { IsErrOf result MinFault.Log → ⊥ }
{
    let mut counting = Formula::new(alloc, room)?;
    match add_count(alloc, encoded, former, &mut counting) {
        Ok(()) => {
            if encoded.formula().words() + counting.words() > room {
                return Ok(None);
            }
            Ok(Some(counting))
        }
        Err(CnfFault::Room) => Ok(None),
        Err(CnfFault::Memory) => Err(MinFault::Memory),
    }
}

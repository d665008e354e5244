// Clauses of literals and truth values.
ghost use Rattle.std.specs.Prelude.{◌≡◌, List, [], ◌∷◌, ◌++◌, cond, map, option_map, option_to_list, IfOk};
ghost use Rattle.cnf_core.specs.declared.literal.LitOrTruth.{LitOrTruth as GivenLit};
ghost use Rattle.cnf_core.specs.declared.literal.LitOrTruth.TheVariants.{Lit as OfLit};
ghost use Rattle.cnf_core.specs.Lit.{has as has_literal};
ghost use Rattle.cnf_core.specs.LitOrTruth.{gathered, flip, clause_of};

use crate::{Lit, LitOrTruth};
use std::alloc::AllocError;

fn has(lits: &[Lit], l: Lit) -> bool
    ensures { result ≡ has_literal lits.now l }
{
    for k in lits {
        if *k == l {
            return true;
        }
    }
    false
}

/// Puts the literal behind the others where it isn't among them. The answer is false where its
/// negation is.
fn put_literal(lits: &mut Vec<Lit>, l: Lit) -> Result<bool, AllocError>
    ensures { IfOk result (λ more. (ts : List GivenLit) → gathered lits.old.items (OfLit l ∷ ts)
        ≡ cond more (gathered lits.new.items ts) []) }
{
    if has(lits, l) {
        return Ok(true);
    }
    if has(lits, l.negated()) {
        return Ok(false);
    }
    lits.push(l)?;
    Ok(true)
}

/// The literals of the clause of those that are there and of those to come, or None where there is none.
fn gather_rest(lits: Vec<Lit>, ts: &[LitOrTruth]) -> Result<Option<Vec<Lit>>, AllocError>
    ensures { IfOk result (λ o. option_to_list (option_map (λ c. c.items) o) ≡ gathered lits.items ts.now) }
{
    let mut lits = lits;
    for t in ts {
        match t {
            LitOrTruth::True => return Ok(None),
            LitOrTruth::False => {}
            LitOrTruth::Lit(l) => {
                if !put_literal(&mut lits, *l)? {
                    return Ok(None);
                }
            }
        }
    }
    Ok(Some(lits))
}

/// The literals of the clause "one of unless is true, or one of the premises isn't, or one of the conclusions is", or
/// None where there is none. They stand in the memory of `spare`, whose own literals go.
pub(crate) fn gather(
    spare: Vec<Lit>,
    unless: &[Lit],
    premises: &[LitOrTruth],
    conclusions: &[LitOrTruth],
) -> Result<Option<Vec<Lit>>, AllocError>
    ensures { IfOk result (λ o. option_to_list (option_map (λ c. c.items) o)
        ≡ clause_of unless.now (map flip premises.now ++ conclusions.now)) }
{
    let mut lits = spare;
    lits.clear();
    for l in unless {
        if !put_literal(&mut lits, *l)? {
            return Ok(None);
        }
    }
    for p in premises {
        match p {
            LitOrTruth::True => {}
            LitOrTruth::False => return Ok(None),
            LitOrTruth::Lit(l) => {
                if !put_literal(&mut lits, l.negated())? {
                    return Ok(None);
                }
            }
        }
    }
    gather_rest(lits, conclusions)
}

// References to attached clauses.
ghost use Rattle.std.specs.Prelude.{◌≡◌};
ghost use Rattle.watch_arena.specs.Trail.{place_of};

/// An attached clause, by the place of its first word in the arena. No clause is at 0. It stays that clause's for good.
#[derive(Clone, Copy, Debug, PartialEq, Eq)]
pub struct ClauseRef(pub u32);

/// The place of the clause, or 0 where there is none.
pub fn place_of(clause: Option<ClauseRef>) -> u32
    ensures { result ≡ place_of clause }
{
    match clause {
        Some(c) => c.0,
        None => 0,
    }
}

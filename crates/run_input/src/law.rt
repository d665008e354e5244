// A law and its parties as fields of a line.
ghost use Rattle.std.specs.Prelude.{◌≡◌, ◌++◌, OnOk};
ghost use Rattle.outside_io.specs.Fields.{spaced};
ghost use Rattle.run_input.specs.Law.{party_fields, second_fields, law_fields};

use lawful_check::{LawBreak, Party};
use outside_io::{push_field, push_number_field};
use plan_core::OutOfMemory;

/// Appends the fields of a party of a law.
fn push_party(into: &mut Vec<u8>, party: Party) -> Result<(), OutOfMemory>
    ensures { OnOk result (into.new.items ≡ into.old.items ++ spaced (party_fields party)) }
{
    match party {
        Party::Node(n) => {
            push_field(into, b"node")?;
            push_number_field(into, u32::from(n.0))
        }
        Party::Edge(e) => {
            push_field(into, b"edge")?;
            push_number_field(into, u32::from(e.0))
        }
    }
}

/// Appends the fields of the second party, where there is one.
fn push_second(into: &mut Vec<u8>, second: Option<Party>) -> Result<(), OutOfMemory>
    ensures { OnOk result (into.new.items ≡ into.old.items ++ spaced (second_fields second)) }
{
    match second {
        Some(party) => push_party(into, party),
        None => Ok(()),
    }
}

/// Appends the fields of a law: its number and its parties.
pub fn push_law(into: &mut Vec<u8>, law: LawBreak) -> Result<(), OutOfMemory>
    ensures { OnOk result (into.new.items ≡ into.old.items ++ spaced (law_fields law)) }
{
    push_number_field(into, u32::from(law.law))?;
    push_party(into, law.first)?;
    push_second(into, law.second)
}

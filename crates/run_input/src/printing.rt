// What `graph` answers.
ghost use Rattle.std.specs.Prelude.{IfOk, IsOkAnd, ◌≤◌};
ghost use Rattle.outside_io.specs.Contents.{WhereTold, SameFiles};
ghost use Rattle.track_order.specs.Order.{IsOrderOf};
ghost use Rattle.run_input.specs.Status.{IsAnswered};
ghost use Rattle.run_input.specs.Met.{between, ReadsInputs, IsUnwritten};
ghost use Rattle.run_input.specs.Answer.{IsPrinted, IsFileJudged, IsAnswerToFile};

use crate::input::{InputRefusal, Station};
use crate::reading::station_of;
use crate::reply::{Reply, fault_reply};
use crate::status::Status;
use outside_io::Files;
use plan_core::{OutOfMemory, Text};
use plan_text::write_graph;
use std::alloc::Global;

/// What `graph` answers to a station.
fn print_station(alloc: Global, station: &Station) -> Result<Reply, OutOfMemory>
    requires { IsOrderOf station.now.graph station.now.order }
    ensures { IfOk result (λ r. IsPrinted station.now.graph station.now.order r.status r.text.items) }
{
    let mut text = Vec::new(alloc);
    write_graph(alloc, &station.graph, &station.order, &mut text)?;
    Ok(Reply {
        status: Status::Done,
        text,
    })
}

/// What `graph` answers.
pub fn print<F: Files>(alloc: Global, input: &Text, files: &mut F) -> Result<Reply, OutOfMemory>
    ensures answer { let met = between (F.at files.old) (F.at files.new) in
        IfOk result (λ r. IsAnswerToFile input.now met (IsFileJudged IsPrinted)
        r.status r.text.items) }
    ensures reads { let met = between (F.at files.old) (F.at files.new) in
        ReadsInputs 1 (IsOkAnd result (λ r. IsAnswered r.status)) met }
    ensures unwritten { let met = between (F.at files.old) (F.at files.new) in IsUnwritten met }
    ensures later { (F.at files.old).read_faults ≤ (F.at files.new).read_faults }
    ensures same { WhereTold (F.at files.old).contents (F.at files.new).contents SameFiles }
{
    match station_of(alloc, input, files) {
        Ok(station) => print_station(alloc, &station),
        Err(InputRefusal::Fault(fault)) => fault_reply(alloc, fault),
        Err(InputRefusal::Memory) => Err(OutOfMemory),
    }
}

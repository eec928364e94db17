// The end of a run, which is printed.
ghost use Rattle.program_steps.specs.Ends.{Ends, IsOwn, Closes};
ghost use Rattle.program_steps.specs.Outcome.{ends_with, fault_line};
ghost use Rattle.program_steps.specs.code.Endings.{ending, outcome};

use super::reply::Reply;
use super::stop::Stop;
use outside::{Sink, Status, put_all};
use runs::Fault;

/// Writes the text and gives the status to end with: this one, or `WriteFault` where the sink failed. Takes
/// no memory.
pub fn finish<O: Sink>(out: &mut O, status: Status, text: &str) -> Status
    ensures { Ends (ends_with status text.now) (O.state out.old) (O.state out.new) result }
{
    match put_all(out, text.as_bytes()) {
        Ok(()) => status,
        Err(_) => Status::WriteFault,
    }
}

/// Writes what a command came to: its reply, or what ended it early. Nothing is written where memory ran out.
/// Takes no memory.
pub fn close<O: Sink>(out: &mut O, end: &Result<Reply, Stop>) -> Status
    ensures closes { Closes (ending outcome end.now) (O.state out.old) (O.state out.new) result }
    ensures own { IsOwn (ending outcome end.now) }
{
    match end {
        Ok(reply) | Err(Stop::Refused(reply)) => finish(out, reply.status, reply.text.as_str()),
        Err(Stop::Failed(fault)) => print_fault(out, *fault),
        Err(Stop::NoMemory) => Status::NoMemory,
    }
}

// Writes the line of a fault.
fn print_fault<O: Sink>(out: &mut O, fault: Fault) -> Status
    ensures { Ends (fault_line fault) (O.state out.old) (O.state out.new) result }
{
    match fault {
        Fault::Read => finish(out, Status::ReadFault, "read fault\n"),
        Fault::Device => finish(out, Status::DeviceFault, "device fault\n"),
        Fault::Clock => finish(out, Status::ClockFault, "clock fault\n"),
        Fault::Write => finish(out, Status::WriteFault, ""),
    }
}

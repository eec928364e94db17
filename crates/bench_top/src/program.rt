// The whole program: its arguments, and its exit code.
ghost use Rattle.std.specs.Prelude.{map, option_map, string_bytes};
ghost use Rattle.std.specs.Process.{exit_status};
ghost use Rattle.outside.specs.Clock.{ClockState};
ghost use Rattle.outside.specs.Words.{words_in};
ghost use Rattle.bench_top.specs.Program.{Exits};

use super::top::run;
use key_device::KeyDevice;
use outside::{Sink, Status, Store, words};
use std::alloc::Global;
use std::env::Args;
use std::io;
use std::process::ExitCode;

/// All that the program does with these arguments, of which the first is its name, and the exit code that it
/// ends with. Arguments that cannot be had, since one is no UTF-8, are no words.
pub fn exit_code<S: Store, O: Sink, K: KeyDevice>(
    alloc: Global,
    arguments: io::Result<Args>,
    store: &mut S,
    out: &mut O,
    device: &mut K,
) -> ExitCode
    ensures { (clock : ClockState) → Exits (option_map (map string_bytes) (words_in arguments))
        (record {
          store = S.state store.old;
          device = K.state device.old;
          clock = clock;
          sink = O.state out.old;
        })
        (record {
          store = S.state store.new;
          device = K.state device.new;
          clock = clock;
          sink = O.state out.new;
        })
        (exit_status result) }
{
    let Ok(words) = words(alloc, arguments) else {
        return ExitCode::from(Status::NoMemory.code());
    };
    ExitCode::from(run(alloc, &words, store, out, device).code())
}

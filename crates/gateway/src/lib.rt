//! Publishing for programs in C: byte buffers as a pointer and a length each, and plain numbers.

#![tactic(auto)]

ghost use Rattle.std.specs.Prelude.{◌≡◌, length};
ghost use Rattle.publishing.specs.Whole.{output_with};
ghost use Rattle.gateway.specs.Numbers.{bytes_written};

use publishing::publish;

/// Publishes, and answers how many bytes were written; 0 where the output has fewer than 120 bytes, which leaves it
/// untouched.
#[unsafe(no_mangle)]
pub extern "C" fn boot_counter_publish(events: &[u8], tape: &[u8], out: &mut [u8]) -> u64
    ensures answer { result ≡ bytes_written events.now tape.now (length out.old) }
    ensures after { out.new ≡ output_with events.now tape.now out.old }
{
    match publish(events, tape, out) {
        Ok(written) => written as u64,
        // a plain number, since C has no Result
        Err(_) => 0,
    }
}

// The replay of a log, line by line: the table is the first bytes of a lent memory, and a line's answer is written into lent bytes.
#![tactic(auto)]

ghost use Rattle.std.specs.Prelude.{◌≡◌, ◌≤◌, length};
ghost use Rattle.octets.specs.Octets.{store};
ghost use Rattle.log_line.specs.Fields.{said};
ghost use Rattle.log_answer.specs.AnswerRows.{answer_room, number_row};
ghost use Rattle.log_lines.specs.Lines.{whole};
ghost use Rattle.log_state.specs.State.{state_of};
ghost use Rattle.printout.specs.Printout.{printout_room};
ghost use Rattle.log_replay.specs.Replay.{Reached, ending};
ghost use Rattle.log_replay.specs.Steps.{AnsweredLine};

use log_answer::put_number;
use log_line::Line;
use log_own::own;
use log_state::{Replay, Stepped};

// Answers one line, without its 0A. The lines before it led to a sound table, if to any, so that its call tests none.
pub fn step(memory: &mut [u8], out: &mut [u8], replay: Replay, line: &[u8]) -> Stepped
    requires { (46304 ≤ length memory.old) × ((answer_room ≤ length out.old) × ((replay.count ≤ 16) × Reached (state_of replay memory.old))) }
    ensures { AnsweredLine replay (whole line.now) memory.old out.old result memory.new out.new }
{
    let size = replay.size();
    let said = log_line::read_line(line);
    let len = match said {
        Line::Own { buckets, key } => {
            return own(memory, out, replay, line, buckets, key);
        }
        Line::Rx {
            now,
            unix,
            address,
            port,
            signer,
            datagram,
        } => log_calls::rx(
            &mut memory[0..size],
            out,
            line,
            now,
            unix,
            address,
            port,
            signer,
            datagram,
        ),
        Line::Sent {
            now,
            key,
            address,
            udp,
            tcp,
            hash,
        } => log_calls::sent(
            &mut memory[0..size],
            out,
            line,
            now,
            key,
            address,
            udp,
            tcp,
            hash,
        ),
        Line::Sweep { now } => log_calls::sweep(&mut memory[0..size], out, now),
        Line::Unreadable => put_number(out, numbers::UNREADABLE),
    };
    Stepped { replay, len }
}

// What follows the answers: the table's printout, or nothing where there is no table.
pub fn put_ending(out: &mut [u8], memory: &[u8], replay: Replay) -> usize
    requires { (printout_room 16 ≤ length out.old) × ((46304 ≤ length memory.now) × ((replay.count ≤ 16) × Reached (state_of replay memory.now))) }
    ensures len { result ≡ length (ending (state_of replay memory.now)) }
    ensures written { out.new ≡ store out.old 0 (ending (state_of replay memory.now)) }
    ensures room { result ≤ printout_room 16 }
{
    if replay.count == 0 {
        return 0;
    }
    let size = replay.size();
    printout::put_table(out, &memory[0..size])
}

// Answers a line over the limit; the replay and the memory stay.
pub fn too_long(out: &mut [u8]) -> usize
    requires { answer_room ≤ length out.old }
    ensures len { result ≡ length (number_row 21) }
    ensures written { out.new ≡ store out.old 0 (number_row 21) }
    ensures room { result ≤ answer_room }
{
    put_number(out, numbers::UNREADABLE)
}

// Proofreads a list of lines before the crew gets it: standard input to standard output, each line taken or declined.
#![tactic(auto)]

ghost use Rattle.std.specs.Prelude.{OnOk};
ghost use Rattle.proofread.specs.Proof.{Emptied};

mod desk;

use desk::Desk;
use std::io::{Read, Write};

// Bytes read at a time: no line is held whole, so memory does not grow with the input.
const BLOCK: usize = 65536;

// Writes the answers that are held; the desk goes on where it was.
fn write_out(rt: &HostRuntime, desk: &mut Desk) -> anyhow::Result<()>
    ensures { OnOk result (Emptied desk.old desk.new) }
{
    rt.stdout().write_all(desk.out.as_slice())?;
    desk.out.clear();
    Ok(())
}

fn proofread(rt: &HostRuntime) -> anyhow::Result<()> {
    let mut block = vec![in rt.alloc(); 0u8; BLOCK]?;
    let mut desk = Desk::new(rt.alloc());
    // no `loop`: every loop is proved to end, and no input has so many blocks
    for _ in 0..u64::MAX {
        let n = rt.stdin().read(&mut block)?;
        if n == 0 {
            break;
        }
        desk.answer_block(&block[..n])?;
        write_out(rt, &mut desk)?;
    }
    desk.finish()?;
    write_out(rt, &mut desk)
}

fn main(rt: HostRuntime) -> anyhow::Result<()> {
    proofread(&rt)
}

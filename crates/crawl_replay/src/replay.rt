//! Replay of a script by the machine.
ghost use Rattle.std.specs.Prelude.{IfOk, IfErr};
ghost use Rattle.crawl_core.specs.Run.{IsRun};
ghost use Rattle.crawl_replay.specs.Script.{script_of};
ghost use Rattle.crawl_limits.specs.Limits.{AreLimits};
ghost use Rattle.crawl_keys.specs.Outcome.{IsRefusal};
ghost use Rattle.crawl_replay.specs.Replay.{IsReplay};

use crate::replies::reply_lines;
use crate::script::{Script, ScriptError, read_script};
use crawl_core::{CoreError, NoMemory, Reply, run};
use std::alloc::{AllocError, Global};

/// Returns the replies of a new frontier to the script in these bytes, one line each. The whole script is read before any event is
/// run.
///
/// # Errors
/// Those of [`read_script`]; `NoMemory` also if the machine or the replies run out of memory.
pub fn replay_text(alloc: Global, bytes: &[u8]) -> Result<Vec<u8>, ScriptError>
    ensures ok { IfOk result (λ text. IsReplay bytes.now text.items) }
    ensures err { IfErr result (IsRefusal ScriptError.NoMemory (script_of bytes.now)) }
{
    let script = read_script(alloc, bytes)?;
    let replies = replies_to(alloc, &script)?;
    Ok(reply_lines(alloc, &replies)?.into_bytes())
}

/// Runs the events of the script on a new machine, and returns the replies. The only error is out of memory.
fn replies_to(alloc: Global, script: &Script) -> Result<Vec<Reply>, NoMemory>
    requires { AreLimits script.now.workers script.now.max }
    ensures { IfOk result (λ replies. IsRun script.now.workers script.now.max script.now.events.items replies.items) }
{
    match run(alloc, script.workers, script.max, &script.events) {
        Ok(replies) => Ok(replies),
        Err(CoreError::NoMemory) => Err(AllocError),
        Err(CoreError::BadWorkers | CoreError::BadMax) => {
            unreachable!("a script's numbers are within the limits")
        }
    }
}

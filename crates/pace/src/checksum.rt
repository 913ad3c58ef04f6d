// One number for all journals, by which two programs compare them.
ghost use Rattle.std.specs.Prelude.{◌≡◌, IfOk};
ghost use Rattle.pace.specs.Checksums.{mixed as mixed_in, with_message as message_in, Summed};

use calendar::Calendar;
use event::Message;
use model::Model;
use study::Study;
use study::fault::StudyFault;

const FACTOR: u64 = 1_099_511_628_211;

fn mixed(sum: u64, x: u64) -> u64
    ensures { result ≡ mixed_in sum x }
{
    sum.wrapping_mul(FACTOR).wrapping_add(x)
}

// The six fields in turn.
fn with_message(sum: u64, m: &Message) -> u64
    ensures { result ≡ message_in sum m.now }
{
    let sum = mixed(sum, m.time.into());
    let sum = mixed(sum, m.receiver.into());
    let sum = mixed(sum, m.sender.into());
    let sum = mixed(sum, m.number.into());
    let sum = mixed(sum, m.kind.into());
    mixed(sum, m.data.into())
}

// The journal of v, message by message. Tells how many there are, and the checksum.
pub(crate) fn with_journal<C: Calendar, M: Model>(
    sum: u64,
    study: &Study<C, M>,
    v: u8,
) -> Result<(usize, u64), StudyFault>
    ensures { IfOk result (λ r. Summed C.meaning M.meaning study.now v sum r.0 r.1) }
{
    let events = study.events(v)?;
    let mut all = sum;
    for i in 0..events {
        all = with_message(all, &study.entry(v, i)?);
    }
    Ok((events, all))
}

// The starting lists.
ghost use Rattle.std.specs.Prelude.{◌≡◌, ◌≤◌, ◌<◌, IfOk};
ghost use Rattle.pace.specs.Starts.{listed, milked_at, passed_at};

use collection::Kind;
use event::Start;
use phold::PASSED_ON;
use std::alloc::{AllocError, Global};

// Of PHOLD: message i for the place i mod p, at second i.
pub(crate) fn passed(heap: Global, places: u8, count: u16) -> Result<Vec<Start>, AllocError>
    requires { 1 ≤ places }
    ensures { IfOk result (λ v. v.items ≡ listed (passed_at places) count) }
{
    let mut starts = Vec::new(heap);
    for i in 0..count {
        starts.push(Start {
            time: i.into(),
            receiver: (i % u16::from(places)) as u8,
            kind: PASSED_ON,
            data: i.into(),
        })?;
    }
    Ok(starts)
}

// Of a collection day: farm 1 + i mod f has milked 1000 + 700 (i mod 7) litres at second 300 i.
pub(crate) fn milked(heap: Global, farms: u8, count: u16) -> Result<Vec<Start>, AllocError>
    requires least { 1 ≤ farms }
    requires most { farms ≤ 10 }
    ensures { IfOk result (λ v. v.items ≡ listed (milked_at farms) count) }
{
    let mut starts = Vec::new(heap);
    for i in 0..count {
        starts.push(Start {
            time: 300 * u32::from(i),
            receiver: 1 + (i % u16::from(farms)) as u8,
            kind: Kind::Milked.into(),
            data: 1000 + 700 * u32::from(i % 7),
        })?;
    }
    Ok(starts)
}

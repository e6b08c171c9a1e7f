// A draft of a part: what a worker makes of it that begins where another may come to.

ghost use Rattle.std.specs.Prelude.{◌≡◌, ◌≤◌, ◌<◌, ◌+◌, ◌-◌, ◌^◌, IsTrue, IfOk, length};
ghost use Rattle.kex_desks.specs.Drafts.{IsPartDraft};

use crate::parts::PartBounds;
use crate::place::KnowsPlace;
use kex_code::memory::Memory;

/// Where it was begun, by place and by number in the piece; the bytes that were read from there;
/// and the text that was written for them.
#[derive(Drop)]
pub struct PartDraft<P> {
    pub place: P,
    pub from: usize,
    pub bytes: Vec<u8>,
    pub text: Vec<u8>,
}

// Reads the line before a part, and notes where that leads. At false it leads nowhere.
fn come_to<W: KnowsPlace>(
    worker: &mut W,
    sample: &W::Place,
    read: u64,
    line: &[u8],
    draft: &mut PartDraft<W::Place>,
) -> Result<bool, Memory>
    requires sample { W.fits worker.old sample.now }
    requires place { W.fits worker.old draft.old.place }
    requires room { read + length line.now < 2 ^ 64 }
    ensures same { W.machine worker.new ≡ W.machine worker.old }
    ensures place { W.fits worker.new draft.new.place }
    ensures stands { IfOk result (λ b. IsTrue b → W.stands_at worker.new draft.new.place) }
    ensures ready { IfOk result (λ b. IsTrue b → IsTrue (W.is_ready worker.new)) }
    ensures counted { IfOk result (λ b. W.counted worker.new ≤ read + length line.now) }
{
    worker.begin_at(sample, read)?;
    draft.text.clear();
    let stop = worker.go_on(line, &mut draft.text)?;
    Ok(stop.is_none() && worker.note(&mut draft.place)?)
}

/// Makes a draft of a part, from where a worker is taken to come that begins the line before it
/// at the sample. The count says how many bytes were read before the piece. At false the draft is
/// none.
pub fn make_draft<W: KnowsPlace>(
    worker: &mut W,
    sample: &W::Place,
    read: u64,
    piece: &[u8],
    part: PartBounds,
    draft: &mut PartDraft<W::Place>,
) -> Result<bool, Memory>
    requires sample { W.fits worker.old sample.now }
    requires place { W.fits worker.old draft.old.place }
    requires part { (part.before ≤ part.from) × (part.from ≤ part.to)
        × (part.to ≤ length piece.now) }
    requires room { read + length piece.now < 2 ^ 64 }
    ensures same { W.machine worker.new ≡ W.machine worker.old }
    ensures place { W.fits worker.new draft.new.place }
    ensures made { IfOk result (λ b. IsTrue b → IsPartDraft W.machine W.follows W.is_ready W.counted
        W.stands_at draft.new.place worker.new draft.new.bytes.items draft.new.text.items) }
{
    let line = &piece[part.before..part.from];
    if !come_to(worker, sample, read + part.before as u64, line, draft)? {
        return Ok(false);
    }
    draft.from = part.from;
    draft.text.clear();
    draft.bytes.clear();
    draft.bytes.extend_from_slice(&piece[part.from..part.to])?;
    let stop = worker.go_on(&draft.bytes, &mut draft.text)?;
    Ok(stop.is_none())
}

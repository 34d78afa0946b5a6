//! How much memory a run takes at its start.
ghost use Rattle.std.specs.Prelude.{◌≡◌, ◌+◌, ◌*◌, suc, min};
ghost use Rattle.machine_parts.specs.Rooms.{most_at_start};

/// For how many words, and for how many frames, a run takes memory at its start at most.
const MOST_AT_START: usize = 1_000_000;

/// For how many words a run takes memory at its start: those of so many frames on the first one, of so many words each, and two more,
/// since an instruction may put two words on before others come off. Above the bound it is the bound.
pub fn words_at_start(frame: usize, depth: u32) -> usize
    ensures { result ≡ min (suc depth * frame + 2) most_at_start }
{
    (depth as usize + 1)
        .saturating_mul(frame)
        .saturating_add(2)
        .min(MOST_AT_START)
}

/// For how many frames on the first one it takes memory: as many as the depth, and above the bound the bound.
pub fn frames_at_start(depth: u32) -> usize
    ensures { result ≡ min depth most_at_start }
{
    (depth as usize).min(MOST_AT_START)
}

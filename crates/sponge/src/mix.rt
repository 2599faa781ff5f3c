// The mix of eight words, in place.
ghost use Rattle.std.specs.Prelude.{◌≡◌, ◌<◌};
ghost use Rattle.sponge.specs.Duplexes.{stirred, turned, mixed};

fn stir(words: &mut [u32; 8], i: usize)
    requires { i < 8 }
    ensures { words.new ≡ stirred words.old i }
{
    let next = words[(i + 1) % 8];
    words[i] = words[i]
        .rotate_left(7)
        .wrapping_add(next)
        .wrapping_add(i as u32);
}

fn turn(words: &mut [u32; 8])
    ensures { words.new ≡ turned 8 words.old }
{
    for i in 0..8 {
        stir(words, i);
    }
}

pub(crate) fn mix(words: &mut [u32; 8])
    ensures { words.new ≡ mixed words.old }
{
    for _pass in 0..8usize {
        turn(words);
    }
}

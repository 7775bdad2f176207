ghost use Rattle.std.specs.Prelude.{◌≡◌, ◌<◌, ◌^◌, length, slice_index, IfSome};
ghost use Rattle.vmclock_page.specs.Words.{AreWords};
ghost use Rattle.abstract_run.specs.Given.{CanRun, IsGiven};

use clock_gate::Trace;

/// What the arrays of a trace say by their types: its image has ten words and its start page 13, of 64 bits each. The laws of runs
/// ask for it.
pub fn given(trace: &Trace)
    requires { CanRun trace.now }
    ensures { IsGiven trace.now }
{
    page_fits(&trace.page);
    image_fits(&trace.image);
}

// A page has 13 words of 64 bits.
fn page_fits(page: &Option<[u64; 13]>)
    ensures { IfSome page.now AreWords }
{
    if let Some(words) = page {
        words_fit(words);
    }
}

fn words_fit(words: &[u64; 13])
    ensures { AreWords words.now }
{
    'words: for place in 0..13 {
        let _ = words[place];
    }
}

// An image has ten words of 64 bits.
fn image_fits(image: &[u64; 10])
    ensures ten { length image.now ≡ 10 }
    ensures fits { slice_index image.now 1 < 2 ^ 64 }
{
    let _ = image[1];
}

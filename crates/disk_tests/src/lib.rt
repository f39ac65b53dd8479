// The program's two input files, tested in document 01's order ('Who causes which refusal').
#![tactic(auto)]

ghost use Rattle.std.specs.Prelude.{◌≡◌, Ok, Err};
ghost use Rattle.refusals.specs.Refusal.{tested};
ghost use Rattle.disk_tests.specs.Disk.{found, file_tests, size};

use refusals::Refusal;

pub const STILL_LIMIT: usize = 65536;

pub const RECIPE_LIMIT: usize = 4096;

// The two tests of one file, of which so many bytes were read, to its end or until the buffer was full.
fn length_of(file: Option<usize>, limit: usize) -> Result<usize, Refusal>
    ensures { result ≡ tested Err (file_tests file limit) (Ok (size file)) }
{
    let n = file.ok_or(Refusal::FileUnread)?;
    if n > limit {
        return Err(Refusal::FileLong);
    }
    Ok(n)
}

// The lengths of both files, or what the four tests find in their order. A file that could not be read has no length.
pub fn tested(still: Option<usize>, recipe: Option<usize>) -> Result<(usize, usize), Refusal>
    ensures { result ≡ found still recipe }
{
    let a = length_of(still, STILL_LIMIT)?;
    let b = length_of(recipe, RECIPE_LIMIT)?;
    Ok((a, b))
}

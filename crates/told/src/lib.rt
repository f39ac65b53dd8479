// The calls' answers as numbers: the refusal's is given back, or 0 and the values in a lent array.
#![tactic(auto)]

ghost use Rattle.std.specs.Prelude.{◌≡◌, ℕ, List};
ghost use Rattle.told.specs.Numbers.{Tells, told_by, alone, picture_numbers, recipe_numbers, needs_numbers, filtered_numbers, held_in, held_numbers, mean_numbers, movement_numbers, said_numbers};

use answers::{Filtered, Held, Mean, Movement, Needs, Picture, Recipe};
use refusals::Refusal;

// What a call gives where it is not refused, as N numbers.
pub trait Numbers<const N: usize>: Copy {
    ghost numbers: { Self → List ℕ };

    fn numbers(self) -> [u64; N]
        ensures { result ≡ numbers self };
}

// An answer: its refusal's number, or 0 and its numbers in the array, which a refusal leaves as it was.
pub fn tell<const N: usize, A: Numbers<N>>(answer: Result<A, Refusal>, res: &mut [u64; N]) -> u32
    ensures { Tells (told_by A.numbers answer) res.old res.new result }
{
    match answer {
        Err(refusal) => u32::from(u8::from(refusal)),
        Ok(values) => {
            *res = values.numbers();
            0
        }
    }
}

// What is held, from the numbers that stand for it.
pub fn held(numbers: &[u64; 4]) -> Held
    ensures { result ≡ held_in numbers.now }
{
    let [count, width, height, channels] = *numbers;
    Held {
        count: count as usize,
        width: width as usize,
        height: height as usize,
        channels: channels as usize,
    }
}

impl Numbers<4> for Picture {
    ghost numbers = { picture_numbers };

    fn numbers(self) -> [u64; 4] {
        let Picture {
            width,
            height,
            channels,
            start,
        } = self;
        [width as u64, height as u64, channels as u64, start as u64]
    }
}

// The length of what was written.
impl Numbers<1> for usize {
    ghost numbers = { alone };

    fn numbers(self) -> [u64; 1] {
        [self as u64]
    }
}

impl Numbers<2> for Recipe {
    ghost numbers = { recipe_numbers };

    fn numbers(self) -> [u64; 2] {
        [u64::from(self.count), self.tolerance]
    }
}

impl Numbers<5> for Needs {
    ghost numbers = { needs_numbers };

    fn numbers(self) -> [u64; 5] {
        [
            self.works as u64,
            self.rows as u64,
            self.sums as u64,
            self.out as u64,
            self.tolerance,
        ]
    }
}

// T.
impl Numbers<1> for u64 {
    ghost numbers = { alone };

    fn numbers(self) -> [u64; 1] {
        [self]
    }
}

impl Numbers<5> for Filtered {
    ghost numbers = { filtered_numbers };

    fn numbers(self) -> [u64; 5] {
        [
            self.width as u64,
            self.height as u64,
            self.channels as u64,
            self.tolerance,
            self.len as u64,
        ]
    }
}

impl Numbers<4> for Held {
    ghost numbers = { held_numbers };

    fn numbers(self) -> [u64; 4] {
        [
            self.count as u64,
            self.width as u64,
            self.height as u64,
            self.channels as u64,
        ]
    }
}

// Three zeros where no stills are held.
impl Numbers<3> for Option<Mean> {
    ghost numbers = { mean_numbers };

    fn numbers(self) -> [u64; 3] {
        match self {
            None => [0; 3],
            Some(mean) => [mean.stills as u64, mean.tolerance, mean.len as u64],
        }
    }
}

impl Numbers<6> for Movement {
    ghost numbers = { movement_numbers };

    fn numbers(self) -> [u64; 6] {
        [
            self.moved as u64,
            self.still as u64,
            self.open as u64,
            self.tolerance1,
            self.tolerance2,
            self.len as u64,
        ]
    }
}

// 1 for yes, 0 for not.
impl Numbers<1> for bool {
    ghost numbers = { said_numbers };

    fn numbers(self) -> [u64; 1] {
        [u64::from(self)]
    }
}

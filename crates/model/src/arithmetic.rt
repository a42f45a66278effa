// The three operations that make one integer of two, told apart by a type.
ghost use Rattle.std.specs.Prelude.{◌≡◌, ℕ};
ghost use Rattle.model.specs.Arithmetic.{Planned, below, sum_planned, difference_planned, comparison_planned};
ghost use Rattle.model.specs.Machine.{plus, minus};
ghost use Rattle.model.specs.declared.Operation.{Operation};
ghost use Rattle.model.specs.declared.Operation.TheVariants as Op;

pub trait Arithmetic {
    // The operation, by its variables, and what it makes of two integers.
    ghost operation: { ℕ → ℕ → ℕ → Operation };

    ghost of: { ℕ → ℕ → ℕ };

    fn apply(m: u32, n: u32) -> u32
        ensures { result ≡ of m n };

    ghost planned: { Planned operation of };
}

pub struct Sum;

pub struct Difference;

pub struct Comparison;

impl Arithmetic for Sum {
    ghost operation = { Op.Add };

    ghost of = { plus };

    ghost planned = { sum_planned };

    #[tactic(auto, unfolding(crate::specs::Machine::plus))]
    fn apply(m: u32, n: u32) -> u32 {
        m.wrapping_add(n)
    }
}

impl Arithmetic for Difference {
    ghost operation = { Op.Subtract };

    ghost of = { minus };

    ghost planned = { difference_planned };

    #[tactic(auto, unfolding(crate::specs::Machine::minus))]
    fn apply(m: u32, n: u32) -> u32 {
        m.wrapping_sub(n)
    }
}

impl Arithmetic for Comparison {
    ghost operation = { Op.Less };

    ghost of = { below };

    ghost planned = { comparison_planned };

    #[tactic(auto, unfolding(crate::specs::Machine::flag))]
    fn apply(m: u32, n: u32) -> u32 {
        u32::from(m < n)
    }
}

#![tactic(auto)]

ghost use Rattle.figures.specs.Piles.{PilesStand, piles};
ghost use Rattle.figures.specs.Table.{FiguresStand, figures};
ghost use Rattle.std.specs.Prelude.{◌≡◌, length};

// Says that the worked figures follow from the definitions of the equations, the orders and the verdict, and answers how
// many there are.
pub fn figures_stand() -> usize
    ensures stand { FiguresStand }
    ensures count { result ≡ length figures }
{
    6
}

// Says the same of the figures of gates and lists, and answers how many there are.
pub fn piles_stand() -> usize
    ensures stand { PilesStand }
    ensures count { result ≡ length piles }
{
    5
}

#[cfg(test)]
mod tests;

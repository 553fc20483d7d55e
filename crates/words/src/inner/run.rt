// A run over packed rows. Whoever builds one says that its connectivity is one.
ghost use Rattle.std.specs.Prelude.{◌≡◌, true};
ghost use Rattle.neighbours.specs.Grid.{is_connectivity, all_sides};
ghost use Rattle.model.specs.declared.Step.TheVariants.{Dilate, ErodeBySides};

use neighbours::ALL_SIDES;

// A run over packed rows: an erosion by sides, at most `iterations` times. Where `turn` is set, object and background
// are exchanged: a dilation, outside which all is background.
#[derive(Clone, Copy)]
pub struct Run {
    pub connectivity: u8,
    pub sides: u8,
    pub turn: bool,
    pub iterations: u16,
    pub ghost linking: { is_connectivity connectivity ≡ true },
    pub ghost outside: { turn ≡ true → sides ≡ all_sides },
}

impl Run {
    ghost use Rattle.words.specs.Frame.{step_of};

    // Beyond each side of the crop is object where `sides` names it.
    pub fn erosion(connectivity: u8, sides: u8, iterations: u16) -> Run
        requires { is_connectivity connectivity ≡ true }
        ensures { step_of result.connectivity result.sides result.turn result.iterations
            ≡ ErodeBySides connectivity sides iterations }
    {
        Run {
            connectivity,
            sides,
            turn: false,
            iterations,
        }
    }

    // Outside the crop is background.
    pub fn dilation(connectivity: u8, iterations: u16) -> Run
        requires { is_connectivity connectivity ≡ true }
        ensures { step_of result.connectivity result.sides result.turn result.iterations
            ≡ Dilate connectivity iterations }
    {
        Run {
            connectivity,
            sides: ALL_SIDES,
            turn: true,
            iterations,
        }
    }
}

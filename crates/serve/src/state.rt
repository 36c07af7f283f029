// The state of a yard while it is planned.
ghost use Rattle.std.specs.Prelude.{◌≡◌};
ghost use Rattle.serve.specs.Serving.{blank};

// What each node has: its demand, its pebbles, the child of it that was filled last and the one
// that was drawn from last, or itself before one was, and its depth.
#[derive(Drop)]
pub struct State {
    pub demands: [i16; 256],
    pub pebbles: [i16; 256],
    pub last_filled: [i16; 256],
    pub last_drawn: [i16; 256],
    pub depths: [i16; 256],
}

impl State {
    // Zeros.
    pub fn new() -> State
        ensures { result ≡ blank }
    {
        State {
            demands: [0; 256],
            pebbles: [0; 256],
            last_filled: [0; 256],
            last_drawn: [0; 256],
            depths: [0; 256],
        }
    }
}

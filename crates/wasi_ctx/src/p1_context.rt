ghost use Rattle.std.specs.Prelude.{◌≡◌};

use crate::WasiCtx;

/// The context of a guest of preview 1.
#[derive(Drop)]
pub struct WasiP1Ctx {
    pub wasi: WasiCtx,
}

impl WasiP1Ctx {
    pub fn new(wasi: WasiCtx) -> WasiP1Ctx
        ensures { result.wasi ≡ wasi }
    {
        WasiP1Ctx { wasi }
    }
}

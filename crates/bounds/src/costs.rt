// What the flows above a flow cost it. The bounds of all flows go by this, wherever it is told from.
ghost use Rattle.std.specs.Prelude.{◌≡◌, ℕ, ◌≤◌, ◌<◌, get_or};

use trade::Flow;

pub(crate) trait Costs {
    // What one instance of flow h costs flow l.
    ghost cost: { Self → ℕ → ℕ → ℕ };

    // Whether the costs of flow l can be told.
    ghost can_tell: { Self → ℕ → Type 0 };

    // The costs of the flows above flow l, each no more than a byte holds.
    fn line(&self, l: usize) -> [u32; Flow::MOST]
        requires { can_tell self.now l }
        ensures costs { (h : ℕ) → h < l → get_or result h 0 ≡ cost self.now l h }
        ensures bytes { (h : ℕ) → h < l → get_or result h 0 ≤ 255 };
}

//! What the clock sees of frames.
ghost use Rattle.std.specs.Prelude.{◌≡◌, ◌≢◌, ◌+◌, ◌<◌, ◌↔◌, ℕ, true};

/// Frames by their numbers, from 0: some of them may be given up, and some of them have a mark, as they were accessed since
/// it was cleared. A call changes no more than its clauses name.
pub trait FrameView {
    /// How many frames there are.
    ghost total: { Self → ℕ };

    /// How often it was asked whether a frame may be given up.
    ghost looks: { Self → ℕ };

    /// The frame may be given up.
    ghost evictable_at: { Self → ℕ → Type 0 };

    /// The frame has its mark.
    ghost marked: { Self → ℕ → Type 0 };

    /// The calls may be made.
    ghost is_open: { Self → Type 0 };

    /// The second may be what calls made of the first: what else a caller wants to know of the frames.
    ghost follows: { Self → Self → Type 0 };

    /// The number of frames.
    fn frames(&self) -> u32
        requires { is_open self.now }
        ensures { result ≡ total self.now };

    /// Whether the frame may be given up. Such a question is a look.
    fn evictable(&mut self, n: u32) -> bool
        requires open { is_open self.old }
        requires inside { n < total self.old }
        ensures open { is_open self.new }
        ensures tells { (result ≡ true) ↔ evictable_at self.old n }
        ensures looked { looks self.new ≡ looks self.old + 1 }
        ensures total { total self.new ≡ total self.old }
        ensures evictable { (m : ℕ) → evictable_at self.new m ↔ evictable_at self.old m }
        ensures marks { (m : ℕ) → marked self.new m ↔ marked self.old m }
        ensures follows { follows self.old self.new };

    /// Whether the frame has its mark.
    fn accessed(&self, n: u32) -> bool
        requires open { is_open self.now }
        requires inside { n < total self.now }
        ensures { (result ≡ true) ↔ marked self.now n };

    /// Clears the frame's mark.
    fn clear(&mut self, n: u32)
        requires open { is_open self.old }
        requires inside { n < total self.old }
        requires evictable { evictable_at self.old n }
        ensures open { is_open self.new }
        ensures cleared { marked self.new n → ⊥ }
        ensures others { (m : ℕ) → m ≢ n → marked self.new m ↔ marked self.old m }
        ensures looks { looks self.new ≡ looks self.old }
        ensures total { total self.new ≡ total self.old }
        ensures evictable { (m : ℕ) → evictable_at self.new m ↔ evictable_at self.old m }
        ensures follows { follows self.old self.new };

    /// No call at all.
    ghost stays: { (v : Self) → follows v v };

    /// Some calls, and then some more.
    ghost goes_on: { (a b c : Self) → follows a b → follows b c → follows a c };
}

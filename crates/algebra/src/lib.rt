// Rings, fields and polynomials. Nothing here runs: each function's contract is a theorem that the other crates rely on.
#![tactic(auto)]

ghost use Rattle.std.specs.Prelude.{◌≡◌, ℕ, ◌^◌, ◌≤◌, ◌≢◌, List, ◌∷◌, length, Option};
ghost use Rattle.algebra.specs.Ring.{RingOps, RingLaws, pow, sub};
ghost use Rattle.algebra.specs.Field.{FieldLaws};
ghost use Rattle.algebra.specs.Polynomial.{Distinct, Roots, Zeros, eval, quotient};
ghost use Rattle.algebra.specs.Lagrange.{Interpolates, abscissas};
ghost use Rattle.algebra.specs.Products.{prod};
ghost use Rattle.algebra.specs.Domain.{HalfTurn, coset};

// Synthetic division by X - r leaves the value at r: p(x) = p(r) + (x - r) q(x), and q has one coefficient fewer than p.
pub fn division_leaves_the_value<R>()
    ensures remainder { (ops : RingOps R) → RingLaws ops → (r : R) (p : List R) (x : R) → eval ops p x ≡ ops.add (eval ops p r) (ops.mul (sub ops x r) (eval ops (quotient ops r p) x)) }
    ensures shorter { (ops : RingOps R) → RingLaws ops → (r c : R) (p : List R) → length (quotient ops r (c ∷ p)) ≡ length p }
{}

// A polynomial over a field with as many distinct roots as it has coefficients is zero.
pub fn roots_are_bounded<R>()
    ensures { (ops : RingOps R) (inverse : R → Option R) → FieldLaws ops inverse → (p rs : List R) → Distinct rs → Roots ops p rs → length p ≤ length rs → Zeros ops p }
{}

// Through points with distinct abscissas there is a polynomial with no more coefficients than points, and any two agree everywhere.
pub fn interpolation_is_unique<R>()
    ensures exists { (ops : RingOps R) (inverse : R → Option R) → FieldLaws ops inverse → (ps : List (R × R)) → Distinct (abscissas ps) → ((p : List R) × Interpolates ops ps p) }
    ensures only { (ops : RingOps R) (inverse : R → Option R) → FieldLaws ops inverse → (ps : List (R × R)) → Distinct (abscissas ps) → (p q : List R) → Interpolates ops ps p → Interpolates ops ps q → (x : R) → eval ops p x ≡ eval ops q x }
{}

// The product of u - c g^i over the 2^k points of a coset is u^(2^k) - c^(2^k).
pub fn coset_product<R>()
    ensures { (ops : RingOps R) → RingLaws ops → (k : ℕ) (g c u : R) → HalfTurn ops g k → prod ops (2 ^ k) (λ i. sub ops u (ops.mul c (pow ops g i))) ≡ sub ops (pow ops u (2 ^ k)) (pow ops c (2 ^ k)) }
{}

// A coset of 2^k points has no point twice where 1 and -1 differ and the shift is not zero.
pub fn coset_points_are_distinct<R>()
    ensures { (ops : RingOps R) (inverse : R → Option R) → FieldLaws ops inverse → ops.one ≢ ops.neg ops.one → (k : ℕ) (g c : R) → HalfTurn ops g k → c ≢ ops.zero → Distinct (coset ops c g (2 ^ k)) }
{}

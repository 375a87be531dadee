// Reduced polynomials as lists of terms: sums, products, images under a map, values, and the first
// bytes whose value is not zero. Definitions and their laws alone; crate buffer has the code.
#![tactic(auto)]

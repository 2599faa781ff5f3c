// The numbers that fix the steps of a run and its seed.

#[derive(Clone, Copy)]
pub struct StarkShape {
    pub log_ext_degree: usize,
    pub log_degree: usize,
    pub main_width: usize,
    pub preprocessed_width: usize,
    pub num_public_values: usize,
    pub num_periodic_columns: usize,
    pub num_quotient_chunks: usize,
    pub opens_main_next_row: bool,
    pub opens_preprocessed_next_row: bool,
    pub has_randomization: bool,
    pub ood_pow_bits: usize,
}

//! Whether a step of a certificate fits a dump: its shape, by the lists alone, and the checks of its elements. A shape is the
//! certificate's, so what is read of the dump is paid by the lists; nothing is searched.

mod fits;

pub use fits::test_step;

//! Two kinds of samples written outside of the crate `samples`, against its trait alone.
#![tactic(auto)]

mod erasable;
mod silent;

pub use erasable::Erasable;
pub use silent::Silent;

#[cfg(test)]
mod tests {
    use crate::erasable::Erasable;
    use crate::silent::Silent;
    use samples::{Complex, Sample, transform};

    // One sample was heard, at place 3: place 4 shares no one bit with 3, and place 1 shares one.
    #[test]
    fn both_kinds_are_transformed(rt: HostRuntime) {
        let mut silent = [Silent { slot: 7 }; 32];
        assert!(rt; transform(&mut silent).is_ok());
        assert_eq!(rt; silent[31].front(), 0);

        let mut heard = [Erasable::zero(); 8];
        heard[3] = Erasable {
            heard: Some(Complex { re: 3, im: -5 }),
        };
        assert!(rt; transform(&mut heard).is_ok());
        assert_eq!(rt; heard[4].front(), 3);
        assert_eq!(rt; heard[1].front(), -3);
    }
}

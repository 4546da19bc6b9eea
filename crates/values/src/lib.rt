#![tactic(auto)]

ghost use Rattle.values.specs.Values.{ValuesStand};

// The worked values of the cipher are what its definitions give.
pub fn values_stand()
    ensures { ValuesStand }
{}

// The code gives the same, where a value has a function of its own.
#[cfg(test)]
mod tests {
    use keystream::Filter;
    use keystream::wide::Wide;
    use row::Row;
    use row::lane::{odd_product, odd_quotient, product, quotient};
    use row::recursion::{step, unstep};

    // A row written from lane [3] to lane [0].
    fn row(l3: u32, l2: u32, l1: u32, l0: u32) -> Row {
        Row { l0, l1, l2, l3 }
    }

    #[test]
    fn odd_products(rt: HostRuntime) {
        assert_eq!(rt; odd_product(1, 1), 4);
        assert_eq!(rt; odd_product(2, 3), 17);
        assert_eq!(rt; odd_product(0xffff_ffff, 0xffff_ffff), 0);
        assert_eq!(rt; odd_product(1, 0x5555_5555), 0);
    }

    #[test]
    fn quotients(rt: HostRuntime) {
        assert_eq!(rt; odd_quotient(4, 1), 1);
        assert_eq!(rt; odd_quotient(17, 3), 2);
        assert_eq!(rt; odd_quotient(0, 0xffff_ffff), 0xffff_ffff);
        assert_eq!(rt; product(3, 4), 15);
        assert_eq!(rt; quotient(15, 4), 3);
        assert_eq!(rt; quotient(0xffff_fffd, 2), 0xffff_ffff);
    }

    #[test]
    fn perm_shifts(rt: HostRuntime) {
        assert_eq!(rt; row(0, 0, 0, 1).perm_shift1(), row(0, 0, 1, 0));
        assert_eq!(rt; row(0, 0, 0, 1).perm_shift2(), row(0, 1, 0, 0));
        assert_eq!(rt; row(0, 0, 0, 2).perm_shift3(), row(1, 0, 0, 2));
    }

    #[test]
    fn perm_shifts_undone(rt: HostRuntime) {
        assert_eq!(rt; row(0, 0, 1, 0).undo_perm_shift1(), row(0, 0, 0, 1));
        assert_eq!(rt; row(1, 0, 0, 2).undo_perm_shift3(), row(0, 0, 0, 2));
    }

    #[test]
    fn recursion_step(rt: HostRuntime) {
        let zeros = row(0, 0, 0, 0);
        // with zeros before it the mask leaves nothing
        assert_eq!(rt; step(zeros, zeros, row(0, 0, 0, 8), zeros), row(0, 8, 0, 1));
    }

    #[test]
    fn recursion_step_undone(rt: HostRuntime) {
        let zeros = row(0, 0, 0, 0);
        assert_eq!(rt;
            unstep(zeros, row(0, 8, 0, 1), zeros, row(0, 0, 0, 8)),
            zeros
        );
    }

    #[test]
    fn wide_block(rt: HostRuntime) {
        let y = row(0, 0, 0, 0x0001_0203);
        assert_eq!(rt;
            Wide::block(y, y),
            [2, 2, 2, 2, 0, 0, 0, 0, 0, 0, 0, 0, 0, 0, 0, 0]
        );
    }
}

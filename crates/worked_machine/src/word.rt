//! The expected fields and faults were computed by a Python program from the table of bits.

use cairo_word::{Reg, WordFault, decode, encode, size};

#[test]
fn words_of_statements(rt: HostRuntime) {
    let rows = [
        // [ap] = 5, ap++
        (
            0x480680017fff8000,
            (0, -1, 1),
            (Reg::Ap, Reg::Fp),
            (1, 0, 0, 2, 4),
            2,
        ),
        // [ap] = [fp-5], ap++
        (
            0x480a7ffb7fff8000,
            (0, -1, -5),
            (Reg::Ap, Reg::Fp),
            (2, 0, 0, 2, 4),
            1,
        ),
        // [ap-1] = [[fp-5]]
        (
            0x400280007ffb7fff,
            (-1, -5, 0),
            (Reg::Ap, Reg::Fp),
            (0, 0, 0, 0, 4),
            1,
        ),
        // [ap] = [fp-5] + 1, ap++
        (
            0x482680017ffb8000,
            (0, -5, 1),
            (Reg::Ap, Reg::Fp),
            (1, 1, 0, 2, 4),
            2,
        ),
        // ret
        (
            0x208b7fff7fff7ffe,
            (-2, -1, -1),
            (Reg::Fp, Reg::Fp),
            (2, 0, 1, 0, 2),
            1,
        ),
        // call rel 7
        (
            0x1104800180018000,
            (0, 1, 1),
            (Reg::Ap, Reg::Ap),
            (1, 0, 2, 0, 1),
            2,
        ),
        // ap += 7
        (
            0x040780017fff7fff,
            (-1, -1, 1),
            (Reg::Fp, Reg::Fp),
            (1, 0, 0, 1, 0),
            2,
        ),
        // jmp rel 0
        (
            0x010780017fff7fff,
            (-1, -1, 1),
            (Reg::Fp, Reg::Fp),
            (1, 0, 2, 0, 0),
            2,
        ),
        // offsets at both ends of their range
        (
            0x20d10000ffff0000,
            (-32768, 32767, -32768),
            (Reg::Fp, Reg::Ap),
            (4, 2, 1, 0, 2),
            1,
        ),
    ];
    for (word, (off_dst, off_op0, off_op1), (dst_reg, op0_reg), flags, cells) in rows {
        match decode(word) {
            Ok(i) => {
                assert_eq!(rt; i.off_dst, off_dst, "at {word:x}");
                assert_eq!(rt; i.off_op0, off_op0, "at {word:x}");
                assert_eq!(rt; i.off_op1, off_op1, "at {word:x}");
                assert_eq!(rt; i.dst_reg, dst_reg, "at {word:x}");
                assert_eq!(rt; i.op0_reg, op0_reg, "at {word:x}");
                let groups = (i.op1_src, i.res_logic, i.pc_update, i.ap_update, i.opcode);
                assert_eq!(rt; groups, flags, "at {word:x}");
                assert_eq!(rt; size(&i), cells, "at {word:x}");
                assert_eq!(rt; encode(&i), word);
            }
            Err(fault) => assert!(rt; false, "{fault:?} at {word:x}"),
        }
    }
}

#[test]
fn first_faults_of_words(rt: HostRuntime) {
    let rows = [
        (0x800280017fff8000, WordFault::HighBit),
        (0xbdee80017fff8000, WordFault::HighBit),
        (0x000e80017fff8000, WordFault::Op1Source),
        (0x3dfe80017fff8000, WordFault::Op1Source),
        (0x006280017fff8000, WordFault::ResLogic),
        (0x6ef280017fff8000, WordFault::ResLogic),
        (0x5da280017fff8000, WordFault::PcUpdate),
        (0x3d4680017fff8000, WordFault::ApUpdate),
        (0x300680017fff8000, WordFault::Opcode),
        (0x022680017fff8000, WordFault::JumpMix),
        (0x120680017fff8000, WordFault::JumpMix),
        (0x060680017fff8000, WordFault::JumpMix),
        (0x150680017fff8000, WordFault::CallMix),
        (0x190680017fff8000, WordFault::CallMix),
    ];
    for (word, fault) in rows {
        assert_eq!(rt; decode(word), Err(fault), "at {word:x}");
    }
}

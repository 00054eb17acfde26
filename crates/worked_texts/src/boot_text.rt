/// The bootloader as a text: `examples/boot.casm`, byte for byte, as a script of the gate checks.
pub(crate) const BOOT_TEXT: &str =
    "// The bootloader (docs/BOOTLOADER.md). Its first word stands at address 1; the run ends at address 118.

// 1: the run begins. ap is fp; below fp are the starts of output, range and hash, the caller's fp, and the return address.
entry:
    [ap] = [[fp-5]], ap++          // the first output is the number of tasks
    [ap] = [fp-5] + 1, ap++        // the first header is the next output
    [ap] = [fp-4], ap++            // range
    [ap] = [fp-3], ap++            // hash

// 6: the head of the loop over tasks. Just below ap: tasks left, and the pointers of output, range and hash.
tasks:
    call task                      // sets fp to ap + 2, so each task has cells of its own
    jmp tasks if [ap-4] != 0       // once more while tasks are left
    ret                            // pops the frame of the run; the stops are just below ap

// 11: one task. fp-6 tasks left, fp-5 its header, fp-4 range, fp-3 hash, fp-2 the caller's fp, fp-1 where to return.
// Any values may stand in fp to fp+5: the program's address, main, its length, two bits, the gap.
task:
    [fp+10] = 0                    // three constants
    [fp+11] = 1
    [fp+12] = 7                    // all three builtins
    [fp+13] = [fp+2] + 4           // 1, main, length and mask are hashed before the code
    [fp+14] = [fp] + [fp+2]        // the address after the code
    [fp+15] = [fp] + [fp+1]        // where the task starts
    [fp+3] = [fp+3] * [fp+3]       // only 0 and 1 equal their squares
    [fp+4] = [fp+4] * [fp+4]
    [fp+16] = [fp+2] + [fp+3]      // the length, and as many words more as the bits say
    [fp+17] = [fp+16] + [fp+4]
    [fp+20] = [fp+17] + [fp+4]
    [fp+10] = [[fp+14]]            // zeros follow the code, so that the last group is full
    [fp+10] = [[fp+14]+1]
    [fp+10] = [[fp+14]+2]
    [fp+10] = [[fp-3]]             // the start of the chain: seven zeros
    [fp+10] = [[fp-3]+1]
    [fp+10] = [[fp-3]+2]
    [fp+10] = [[fp-3]+3]
    [fp+10] = [[fp-3]+4]
    [fp+10] = [[fp-3]+5]
    [fp+10] = [[fp-3]+6]
    [fp+13] = [[fp-3]+7]           // and the number of words that are hashed
    [fp+11] = [[fp-3]+8]           // the first group: 1
    [fp+1] = [[fp-3]+9]            // main
    [fp+2] = [[fp-3]+10]           // length
    [fp+12] = [[fp-3]+11]          // mask
    [fp+18] = [fp-3] + 20          // the loop begins at the second instance
    [fp+19] = [fp]                 // and at the first code word
    ap += 21                       // its first state is just below ap

// 46: the head of the loop over hash instances. ap-3 the instance, ap-2 its four code words, ap-1 the words left.
block:
    [ap] = [[ap-3]-8]              // the words that the instance before gave
    [ap] = [[ap-3]]                // are those that this one takes
    [ap+1] = [[ap-3]-7]
    [ap+1] = [[ap-3]+1]
    [ap+2] = [[ap-3]-6]
    [ap+2] = [[ap-3]+2]
    [ap+3] = [[ap-3]-5]
    [ap+3] = [[ap-3]+3]
    [ap+4] = [[ap-3]-4]
    [ap+4] = [[ap-3]+4]
    [ap+5] = [[ap-3]-3]
    [ap+5] = [[ap-3]+5]
    [ap+6] = [[ap-3]-2]
    [ap+6] = [[ap-3]+6]
    [ap+7] = [[ap-3]-1]
    [ap+7] = [[ap-3]+7]
    [ap+8] = [[ap-2]]              // four words of the code
    [ap+8] = [[ap-3]+8]            // are those that this one hashes
    [ap+9] = [[ap-2]+1]
    [ap+9] = [[ap-3]+9]
    [ap+10] = [[ap-2]+2]
    [ap+10] = [[ap-3]+10]
    [ap+11] = [[ap-2]+3]
    [ap+11] = [[ap-3]+11]
    [ap+12] = [ap-3] + 20          // the next state
    [ap+13] = [ap-2] + 4
    [ap+14] = [ap-1] + -4
    ap += 15                       // puts it just below ap
    jmp block if [ap-1] != 0       // once more while words are left

// 80: every code word is hashed. ap-3 is the hash pointer after the last instance.
header:
    [ap] = [[ap-3]-8]              // the words that the last instance gave
    [ap] = [[fp-5]+1]              // are those of the task's header
    [ap+1] = [[ap-3]-7]
    [ap+1] = [[fp-5]+2]
    [ap+2] = [[ap-3]-6]
    [ap+2] = [[fp-5]+3]
    [ap+3] = [[ap-3]-5]
    [ap+3] = [[fp-5]+4]
    [ap+4] = [[ap-3]-4]
    [ap+4] = [[fp-5]+5]
    [ap+5] = [[ap-3]-3]
    [ap+5] = [[fp-5]+6]
    [ap+6] = [[ap-3]-2]
    [ap+6] = [[fp-5]+7]
    [ap+7] = [[ap-3]-1]
    [ap+7] = [[fp-5]+8]
    [ap+8] = [fp]                  // which program is called: its address
    [ap+9] = [fp+1]                // main
    [ap+10] = [fp+2]               // and length
    [ap+11] = [fp-5] + 9           // the task's outputs follow its header
    [ap+12] = [fp-4]               // range as it stands
    [ap+13] = [ap-3]               // hash after the bootloader's own instances
    ap += 14                       // ap is just above the three pointers

// 105: the task runs, in a frame of its own from the three pointers on.
call_task:
    call abs [fp+15]               // at the program's address plus main

// 106: it has returned. fp is that of this frame again; its stop pointers are just below ap, wherever that is.
return:
    [fp+6] = [ap-3]                // output stop
    [fp+7] = [ap-2]                // range stop
    [fp+8] = [ap-1]                // hash stop
    ap += [fp+5]                   // over the cells that the task still has above ap
    [fp+6] = [fp-5] + [fp+9]       // the stop is the header plus what the header says
    [fp+9] = [[fp-5]]              // which is its first cell
    [ap] = [fp-6] + -1, ap++       // the next state: one task less
    [ap] = [fp+6], ap++            // and the stops as pointers
    [ap] = [fp+7], ap++
    [ap] = [fp+8], ap++
    ret                            // back to the jump at 8
";

// The netlists of the repository's folder `examples`, without comments.

/// A netlist and its name.
#[derive(Clone, Copy)]
pub(crate) struct Example {
    pub name: &'static str,
    pub text: &'static str,
}

const ADDER16: &str = ".model adder16\n\
     .inputs a[0] a[1] a[2] a[3] a[4] a[5] a[6] a[7] a[8] a[9] a[10] a[11] a[12] a[13] a[14] a[15] b[0] \
     b[1] b[2] b[3] b[4] b[5] b[6] b[7] b[8] b[9] b[10] b[11] b[12] b[13] b[14] b[15]\n\
     .outputs sum[0] sum[1] sum[2] sum[3] sum[4] sum[5] sum[6] sum[7] sum[8] sum[9] sum[10] sum[11] \
     sum[12] sum[13] sum[14] sum[15] sum[16]\n.names $false\n.names $true\n1\n.names $undef\n\
     .names a[12] b[12] $abc$435$new_n50_\n11 1\n.names a[12] b[12] $abc$435$new_n51_\n10 1\n01 1\n\
     .names a[11] b[11] $abc$435$new_n52_\n11 1\n.names a[11] b[11] $abc$435$new_n53_\n1- 1\n-1 1\n\
     .names a[10] b[10] $abc$435$new_n54_\n11 1\n.names a[10] b[10] $abc$435$new_n55_\n10 1\n01 1\n\
     .names a[9] b[9] $abc$435$new_n56_\n11 1\n.names a[9] b[9] $abc$435$new_n57_\n1- 1\n-1 1\n\
     .names a[8] b[8] $abc$435$new_n58_\n11 1\n.names a[8] b[8] $abc$435$new_n59_\n10 1\n01 1\n\
     .names a[7] b[7] $abc$435$new_n60_\n11 1\n.names a[7] b[7] $abc$435$new_n61_\n1- 1\n-1 1\n\
     .names a[6] b[6] $abc$435$new_n62_\n11 1\n.names a[6] b[6] $abc$435$new_n63_\n10 1\n01 1\n\
     .names a[5] b[5] $abc$435$new_n64_\n11 1\n.names a[4] b[4] $abc$435$new_n65_\n11 1\n\
     .names a[4] b[4] $abc$435$new_n66_\n10 1\n01 1\n.names a[3] b[3] $abc$435$new_n67_\n11 1\n\
     .names a[2] b[2] $abc$435$new_n68_\n11 1\n.names a[2] b[2] $abc$435$new_n69_\n10 1\n01 1\n\
     .names a[1] b[1] $abc$435$new_n70_\n11 1\n.names a[0] b[0] $abc$435$new_n71_\n11 1\n\
     .names a[1] b[1] $abc$435$new_n72_\n10 1\n01 1\n\
     .names $abc$435$new_n71_ $abc$435$new_n72_ $abc$435$new_n73_\n11 1\n\
     .names $abc$435$new_n70_ $abc$435$new_n73_ $abc$435$new_n74_\n1- 1\n-1 1\n\
     .names $abc$435$new_n69_ $abc$435$new_n74_ $abc$435$new_n75_\n11 1\n\
     .names $abc$435$new_n68_ $abc$435$new_n75_ $abc$435$new_n76_\n1- 1\n-1 1\n\
     .names a[3] b[3] $abc$435$new_n77_\n10 1\n01 1\n\
     .names $abc$435$new_n76_ $abc$435$new_n77_ $abc$435$new_n78_\n11 1\n\
     .names $abc$435$new_n67_ $abc$435$new_n78_ $abc$435$new_n79_\n1- 1\n-1 1\n\
     .names $abc$435$new_n66_ $abc$435$new_n79_ $abc$435$new_n80_\n11 1\n\
     .names $abc$435$new_n65_ $abc$435$new_n80_ $abc$435$new_n81_\n1- 1\n-1 1\n\
     .names a[5] b[5] $abc$435$new_n82_\n10 1\n01 1\n\
     .names $abc$435$new_n81_ $abc$435$new_n82_ $abc$435$new_n83_\n11 1\n\
     .names $abc$435$new_n64_ $abc$435$new_n83_ $abc$435$new_n84_\n1- 1\n-1 1\n\
     .names $abc$435$new_n63_ $abc$435$new_n84_ $abc$435$new_n85_\n11 1\n\
     .names $abc$435$new_n62_ $abc$435$new_n85_ $abc$435$new_n86_\n1- 1\n-1 1\n\
     .names $abc$435$new_n61_ $abc$435$new_n86_ $abc$435$new_n87_\n11 1\n\
     .names $abc$435$new_n60_ $abc$435$new_n87_ $abc$435$new_n88_\n1- 1\n-1 1\n\
     .names $abc$435$new_n59_ $abc$435$new_n88_ $abc$435$new_n89_\n11 1\n\
     .names $abc$435$new_n58_ $abc$435$new_n89_ $abc$435$new_n90_\n1- 1\n-1 1\n\
     .names $abc$435$new_n57_ $abc$435$new_n90_ $abc$435$new_n91_\n11 1\n\
     .names $abc$435$new_n56_ $abc$435$new_n91_ $abc$435$new_n92_\n1- 1\n-1 1\n\
     .names $abc$435$new_n55_ $abc$435$new_n92_ $abc$435$new_n93_\n11 1\n\
     .names $abc$435$new_n54_ $abc$435$new_n93_ $abc$435$new_n94_\n1- 1\n-1 1\n\
     .names $abc$435$new_n53_ $abc$435$new_n94_ $abc$435$new_n95_\n11 1\n\
     .names $abc$435$new_n52_ $abc$435$new_n95_ $abc$435$new_n96_\n1- 1\n-1 1\n\
     .names $abc$435$new_n51_ $abc$435$new_n96_ $abc$435$new_n97_\n11 1\n\
     .names $abc$435$new_n50_ $abc$435$new_n97_ $abc$435$new_n98_\n1- 1\n-1 1\n\
     .names a[13] b[13] $abc$435$new_n99_\n1- 1\n-1 1\n.names a[13] b[13] $abc$435$new_n100_\n11 1\n\
     .names $abc$435$new_n99_ $abc$435$new_n100_ $abc$435$new_n101_\n10 1\n\
     .names $abc$435$new_n98_ $abc$435$new_n101_ sum[13]\n10 1\n01 1\n\
     .names a[14] b[14] $abc$435$new_n103_\n11 1\n.names a[14] b[14] $abc$435$new_n104_\n10 1\n01 1\n\
     .names $abc$435$new_n98_ $abc$435$new_n100_ $abc$435$new_n105_\n1- 1\n-1 1\n\
     .names $abc$435$new_n99_ $abc$435$new_n105_ $abc$435$new_n106_\n11 1\n\
     .names $abc$435$new_n104_ $abc$435$new_n106_ $abc$435$new_n107_\n11 1\n\
     .names $abc$435$new_n104_ $abc$435$new_n106_ sum[14]\n10 1\n01 1\n\
     .names $abc$435$new_n103_ $abc$435$new_n107_ $abc$435$new_n109_\n1- 1\n-1 1\n\
     .names a[15] b[15] $abc$435$new_n110_\n1- 1\n-1 1\n.names a[15] b[15] $abc$435$new_n111_\n11 1\n\
     .names $abc$435$new_n110_ $abc$435$new_n111_ $abc$435$new_n112_\n10 1\n\
     .names $abc$435$new_n109_ $abc$435$new_n112_ sum[15]\n10 1\n01 1\n.names a[0] b[0] sum[0]\n10 1\n\
     01 1\n.names $abc$435$new_n109_ $abc$435$new_n111_ $abc$435$new_n115_\n1- 1\n-1 1\n\
     .names $abc$435$new_n110_ $abc$435$new_n115_ sum[16]\n11 1\n\
     .names $abc$435$new_n71_ $abc$435$new_n72_ sum[1]\n10 1\n01 1\n\
     .names $abc$435$new_n69_ $abc$435$new_n74_ sum[2]\n10 1\n01 1\n\
     .names $abc$435$new_n76_ $abc$435$new_n77_ sum[3]\n10 1\n01 1\n\
     .names $abc$435$new_n66_ $abc$435$new_n79_ sum[4]\n10 1\n01 1\n\
     .names $abc$435$new_n81_ $abc$435$new_n82_ sum[5]\n10 1\n01 1\n\
     .names $abc$435$new_n63_ $abc$435$new_n84_ sum[6]\n10 1\n01 1\n.names a[7] b[7] $abc$435$new_n123_\n\
     10 1\n01 1\n.names $abc$435$new_n86_ $abc$435$new_n123_ sum[7]\n10 1\n01 1\n\
     .names $abc$435$new_n59_ $abc$435$new_n88_ sum[8]\n10 1\n01 1\n.names a[9] b[9] $abc$435$new_n126_\n\
     10 1\n01 1\n.names $abc$435$new_n90_ $abc$435$new_n126_ sum[9]\n10 1\n01 1\n\
     .names $abc$435$new_n55_ $abc$435$new_n92_ sum[10]\n10 1\n01 1\n\
     .names a[11] b[11] $abc$435$new_n129_\n10 1\n01 1\n\
     .names $abc$435$new_n94_ $abc$435$new_n129_ sum[11]\n10 1\n01 1\n\
     .names $abc$435$new_n51_ $abc$435$new_n96_ sum[12]\n10 1\n01 1\n.end\n";

const ADDER4: &str =
    ".model adder\n.inputs a0 b0 a1 b1 a2 b2 a3 b3\n.outputs s0 s1 s2 s3 s4\n.names a0 b0 s0\n10 1\n\
     01 1\n.names a0 b0 c1\n11 1\n.names a1 b1 p1\n10 1\n01 1\n.names p1 c1 s1\n10 1\n01 1\n\
     .names a1 b1 g1\n11 1\n.names p1 c1 h1\n11 1\n.names g1 h1 c2\n1- 1\n-1 1\n.names a2 b2 p2\n10 1\n\
     01 1\n.names p2 c2 s2\n10 1\n01 1\n.names a2 b2 g2\n11 1\n.names p2 c2 h2\n11 1\n.names g2 h2 c3\n\
     1- 1\n-1 1\n.names a3 b3 p3\n10 1\n01 1\n.names p3 c3 s3\n10 1\n01 1\n.names a3 b3 g3\n11 1\n\
     .names p3 c3 h3\n11 1\n.names g3 h3 c4\n1- 1\n-1 1\n.names c4 s4\n1 1\n.end\n";

const AND2: &str = ".model and2\n.inputs a b\n.outputs y\n.names a b y\n11 1\n.end\n";

const CONSTANT: &str = ".model constant\n.outputs y\n.names y\n1\n.end\n";

const CRC8: &str = ".model crc8\n\
     .inputs state[0] state[1] state[2] state[3] state[4] state[5] state[6] state[7] data[0] data[1] \
     data[2] data[3] data[4] data[5] data[6] data[7]\n\
     .outputs next[0] next[1] next[2] next[3] next[4] next[5] next[6] next[7]\n.names $false\n\
     .names $true\n1\n.names $undef\n.names data[6] state[6] $abc$268$new_n25_\n10 1\n01 1\n\
     .names data[7] state[7] $abc$268$new_n26_\n10 1\n01 1\n\
     .names $abc$268$new_n25_ $abc$268$new_n26_ $abc$268$new_n27_\n10 1\n01 1\n\
     .names data[0] state[0] $abc$268$new_n28_\n10 1\n01 1\n\
     .names $abc$268$new_n27_ $abc$268$new_n28_ next[0]\n10 1\n01 1\n\
     .names data[5] state[5] $abc$268$new_n30_\n10 1\n01 1\n\
     .names $abc$268$new_n27_ $abc$268$new_n30_ next[7]\n10 1\n01 1\n\
     .names data[4] state[4] $abc$268$new_n32_\n10 1\n01 1\n\
     .names $abc$268$new_n30_ $abc$268$new_n32_ $abc$268$new_n33_\n10 1\n01 1\n\
     .names $abc$268$new_n25_ $abc$268$new_n33_ next[6]\n10 1\n01 1\n\
     .names data[3] state[3] $abc$268$new_n35_\n10 1\n01 1\n\
     .names $abc$268$new_n33_ $abc$268$new_n35_ next[5]\n10 1\n01 1\n\
     .names data[2] state[2] $abc$268$new_n37_\n10 1\n01 1\n\
     .names $abc$268$new_n35_ $abc$268$new_n37_ $abc$268$new_n38_\n10 1\n01 1\n\
     .names $abc$268$new_n32_ $abc$268$new_n38_ next[4]\n10 1\n01 1\n\
     .names data[1] state[1] $abc$268$new_n40_\n10 1\n01 1\n\
     .names $abc$268$new_n26_ $abc$268$new_n40_ $abc$268$new_n41_\n10 1\n01 1\n\
     .names $abc$268$new_n38_ $abc$268$new_n41_ next[3]\n10 1\n01 1\n\
     .names next[0] $abc$268$new_n41_ next[1]\n10 1\n01 1\n.names $abc$268$new_n37_ next[1] next[2]\n\
     10 1\n01 1\n.end\n";

const DECODER3: &str = ".model decoder3\n.inputs number[0] number[1] number[2] enable\n\
     .outputs line[0] line[1] line[2] line[3] line[4] line[5] line[6] line[7]\n.names $false\n\
     .names $true\n1\n.names $undef\n.names number[0] $abc$179$new_n13_\n0 1\n\
     .names $abc$179$new_n13_ number[1] $abc$179$new_n14_\n10 1\n\
     .names enable number[2] $abc$179$new_n15_\n10 1\n\
     .names $abc$179$new_n14_ $abc$179$new_n15_ line[0]\n11 1\n\
     .names number[0] number[1] $abc$179$new_n17_\n10 1\n\
     .names $abc$179$new_n15_ $abc$179$new_n17_ line[1]\n11 1\n\
     .names number[1] number[0] $abc$179$new_n19_\n10 1\n\
     .names $abc$179$new_n15_ $abc$179$new_n19_ line[2]\n11 1\n\
     .names number[0] number[1] $abc$179$new_n21_\n11 1\n\
     .names $abc$179$new_n15_ $abc$179$new_n21_ line[3]\n11 1\n\
     .names number[2] enable $abc$179$new_n23_\n11 1\n\
     .names $abc$179$new_n14_ $abc$179$new_n23_ line[4]\n11 1\n\
     .names $abc$179$new_n17_ $abc$179$new_n23_ line[5]\n11 1\n\
     .names $abc$179$new_n19_ $abc$179$new_n23_ line[6]\n11 1\n\
     .names $abc$179$new_n21_ $abc$179$new_n23_ line[7]\n11 1\n.end\n";

const EITHER: &str =
    ".model either\n.inputs a  b\n.outputs y\n.names $false\n.names $true\n1\n.names $undef\n\
     .names a b y\n1- 1\n-1 1\n.end\n";

const FULL_ADDER: &str =
    ".model full_adder\n.inputs a b carry_in\n.outputs sum carry_out\n.names a b carry_in sum\n100 1\n\
     010 1\n001 1\n111 1\n.names a b carry_in carry_out\n11- 1\n1-1 1\n-11 1\n.end\n";

const FULL_ADDER_CELLS: &str =
    ".model full_adder_cells\n.inputs a b carry_in\n.outputs sum carry_out\n.names a a0\n1 1\n\
     .names b b0\n1 1\n.names carry_in c0\n1 1\n.names a0 a1\n1 1\n.names b0 b1\n1 1\n.names c0 c1\n1 1\n\
     .names a1 b1 c1 carry\n11- 1\n1-1 1\n-11 1\n.names a1 a2\n1 1\n.names b1 b2\n1 1\n.names c1 not_c2\n\
     0 1\n.names c1 c2\n1 1\n.names carry carry3\n1 1\n.names a2 b2 not_c2 part\n11- 1\n1-1 1\n-11 1\n\
     .names c2 c3\n1 1\n.names carry3 carry4\n1 1\n.names carry3 not_carry4\n0 1\n.names part part4\n\
     1 1\n.names c3 c4\n1 1\n.names carry4 carry5\n1 1\n.names not_carry4 part4 c4 sum5\n11- 1\n1-1 1\n\
     -11 1\n.names carry5 carry6\n1 1\n.names sum5 sum6\n1 1\n.names sum6 sum\n1 1\n\
     .names carry6 carry_out\n1 1\n.end\n";

const FULL_ADDER_MIG: &str =
    ".model full_adder_mig\n.inputs a b carry_in\n.outputs sum carry_out\n.names a new_n4\n1 1\n\
     .names b new_n5\n1 1\n.names carry_in new_n6\n1 1\n.names new_n4 new_n5 new_n6 new_n7\n11- 1\n\
     1-1 1\n-11 1\n.names new_n4 new_n5 new_n6 new_n8\n11- 1\n1-0 1\n-10 1\n.names new_n6 new_n9\n1 1\n\
     .names new_n7 new_n10\n1 1\n.names new_n8 new_n11\n1 1\n.names new_n9 new_n12\n1 1\n\
     .names new_n10 new_n11 new_n12 new_n13\n01- 1\n0-1 1\n-11 1\n.names new_n10 new_n14\n1 1\n\
     .names new_n13 sum\n1 1\n.names new_n14 carry_out\n1 1\n.end\n";

const MAJORITY: &str =
    ".model majority\n.inputs a b c\n.outputs y\n.names a b c y\n11- 1\n1-1 1\n-11 1\n.end\n";

const MUL4: &str = ".model mul4\n.inputs a[0] a[1] a[2] a[3] b[0] b[1] b[2] b[3]\n\
     .outputs p[0] p[1] p[2] p[3] p[4] p[5] p[6] p[7]\n.names $false\n.names $true\n1\n.names $undef\n\
     .names b[1] a[0] $abc$395$new_n17_\n11 1\n.names a[1] b[0] $abc$395$new_n18_\n11 1\n\
     .names a[1] b[1] $abc$395$new_n19_\n11 1\n.names b[0] a[0] p[0]\n11 1\n\
     .names $abc$395$new_n19_ p[0] $abc$395$new_n21_\n11 1\n\
     .names $abc$395$new_n17_ $abc$395$new_n18_ p[1]\n10 1\n01 1\n.names a[0] b[2] $abc$395$new_n23_\n\
     11 1\n.names b[0] a[2] $abc$395$new_n24_\n11 1\n.names b[1] a[2] $abc$395$new_n25_\n11 1\n\
     .names $abc$395$new_n18_ $abc$395$new_n25_ $abc$395$new_n26_\n11 1\n\
     .names $abc$395$new_n19_ $abc$395$new_n24_ $abc$395$new_n27_\n10 1\n01 1\n\
     .names $abc$395$new_n23_ $abc$395$new_n27_ $abc$395$new_n28_\n11 1\n\
     .names $abc$395$new_n23_ $abc$395$new_n27_ $abc$395$new_n29_\n10 1\n01 1\n\
     .names $abc$395$new_n21_ $abc$395$new_n29_ $abc$395$new_n30_\n11 1\n\
     .names $abc$395$new_n21_ $abc$395$new_n29_ p[2]\n10 1\n01 1\n\
     .names $abc$395$new_n26_ $abc$395$new_n28_ $abc$395$new_n32_\n1- 1\n-1 1\n\
     .names b[0] a[3] $abc$395$new_n33_\n11 1\n.names b[1] a[3] $abc$395$new_n34_\n11 1\n\
     .names $abc$395$new_n24_ $abc$395$new_n34_ $abc$395$new_n35_\n11 1\n\
     .names $abc$395$new_n25_ $abc$395$new_n33_ $abc$395$new_n36_\n10 1\n01 1\n\
     .names a[1] b[2] $abc$395$new_n37_\n11 1\n\
     .names $abc$395$new_n36_ $abc$395$new_n37_ $abc$395$new_n38_\n11 1\n\
     .names $abc$395$new_n36_ $abc$395$new_n37_ $abc$395$new_n39_\n10 1\n01 1\n\
     .names $abc$395$new_n32_ $abc$395$new_n39_ $abc$395$new_n40_\n11 1\n\
     .names $abc$395$new_n32_ $abc$395$new_n39_ $abc$395$new_n41_\n10 1\n01 1\n\
     .names a[0] b[3] $abc$395$new_n42_\n11 1\n\
     .names $abc$395$new_n41_ $abc$395$new_n42_ $abc$395$new_n43_\n11 1\n\
     .names $abc$395$new_n41_ $abc$395$new_n42_ $abc$395$new_n44_\n10 1\n01 1\n\
     .names $abc$395$new_n30_ $abc$395$new_n44_ $abc$395$new_n45_\n11 1\n\
     .names $abc$395$new_n40_ $abc$395$new_n43_ $abc$395$new_n46_\n1- 1\n-1 1\n\
     .names a[1] b[3] $abc$395$new_n47_\n11 1\n\
     .names $abc$395$new_n35_ $abc$395$new_n38_ $abc$395$new_n48_\n1- 1\n-1 1\n\
     .names a[2] b[2] $abc$395$new_n49_\n11 1\n.names b[2] a[3] $abc$395$new_n50_\n11 1\n\
     .names $abc$395$new_n25_ $abc$395$new_n50_ $abc$395$new_n51_\n11 1\n\
     .names $abc$395$new_n34_ $abc$395$new_n49_ $abc$395$new_n52_\n10 1\n01 1\n\
     .names $abc$395$new_n48_ $abc$395$new_n52_ $abc$395$new_n53_\n11 1\n\
     .names $abc$395$new_n48_ $abc$395$new_n52_ $abc$395$new_n54_\n10 1\n01 1\n\
     .names $abc$395$new_n47_ $abc$395$new_n54_ $abc$395$new_n55_\n11 1\n\
     .names $abc$395$new_n47_ $abc$395$new_n54_ $abc$395$new_n56_\n10 1\n01 1\n\
     .names $abc$395$new_n46_ $abc$395$new_n56_ $abc$395$new_n57_\n11 1\n\
     .names $abc$395$new_n46_ $abc$395$new_n56_ $abc$395$new_n58_\n10 1\n01 1\n\
     .names $abc$395$new_n45_ $abc$395$new_n58_ $abc$395$new_n59_\n11 1\n\
     .names $abc$395$new_n45_ $abc$395$new_n58_ p[4]\n10 1\n01 1\n\
     .names $abc$395$new_n57_ $abc$395$new_n59_ $abc$395$new_n61_\n1- 1\n-1 1\n\
     .names $abc$395$new_n53_ $abc$395$new_n55_ $abc$395$new_n62_\n1- 1\n-1 1\n\
     .names a[2] b[3] $abc$395$new_n63_\n11 1\n\
     .names $abc$395$new_n50_ $abc$395$new_n25_ $abc$395$new_n64_\n10 1\n\
     .names $abc$395$new_n63_ $abc$395$new_n64_ $abc$395$new_n65_\n11 1\n\
     .names $abc$395$new_n63_ $abc$395$new_n64_ $abc$395$new_n66_\n10 1\n01 1\n\
     .names $abc$395$new_n62_ $abc$395$new_n66_ $abc$395$new_n67_\n1- 1\n-1 1\n\
     .names $abc$395$new_n62_ $abc$395$new_n66_ $abc$395$new_n68_\n11 1\n\
     .names $abc$395$new_n67_ $abc$395$new_n68_ $abc$395$new_n69_\n10 1\n\
     .names $abc$395$new_n61_ $abc$395$new_n69_ p[5]\n10 1\n01 1\n\
     .names $abc$395$new_n51_ $abc$395$new_n65_ $abc$395$new_n71_\n1- 1\n-1 1\n\
     .names a[3] b[3] $abc$395$new_n72_\n11 1\n\
     .names $abc$395$new_n71_ $abc$395$new_n72_ $abc$395$new_n73_\n11 1\n\
     .names $abc$395$new_n71_ $abc$395$new_n72_ $abc$395$new_n74_\n10 1\n01 1\n\
     .names $abc$395$new_n57_ $abc$395$new_n67_ $abc$395$new_n75_\n11 1\n\
     .names $abc$395$new_n68_ $abc$395$new_n75_ $abc$395$new_n76_\n1- 1\n-1 1\n\
     .names $abc$395$new_n74_ $abc$395$new_n76_ $abc$395$new_n77_\n11 1\n\
     .names $abc$395$new_n74_ $abc$395$new_n76_ p[6]\n10 1\n01 1\n\
     .names $abc$395$new_n30_ $abc$395$new_n44_ p[3]\n10 1\n01 1\n\
     .names $abc$395$new_n73_ $abc$395$new_n77_ p[7]\n1- 1\n-1 1\n.end\n";

const POPCOUNT7: &str =
    ".model popcount7\n.inputs x0 x1 x2 x3 x4 x5 x6\n.outputs n0 n1 n2\n.names $false\n.names $true\n1\n\
     .names $undef\n.subckt full_adder c=c0 s=s0 x=x0 y=x1 z=x2\n\
     .subckt full_adder c=c2 s=n0 x=s0 y=s1 z=x6\n.subckt full_adder c=c1 s=s1 x=x3 y=x4 z=x5\n\
     .subckt full_adder c=n2 s=n1 x=c0 y=c1 z=c2\n.end\n.model full_adder\n.inputs x y z\n.outputs s c\n\
     .names $false\n.names $true\n1\n.names $undef\n.names y z $abc$101$new_n6_\n1- 1\n-1 1\n\
     .names y z $abc$101$new_n7_\n11 1\n.names $abc$101$new_n6_ $abc$101$new_n7_ $abc$101$new_n8_\n10 1\n\
     .names x $abc$101$new_n8_ s\n10 1\n01 1\n.names x $abc$101$new_n6_ $abc$101$new_n10_\n11 1\n\
     .names $abc$101$new_n7_ $abc$101$new_n10_ c\n1- 1\n-1 1\n.end\n";

const PRIORITY8: &str = ".model priority8\n\
     .inputs request[0] request[1] request[2] request[3] request[4] request[5] request[6] request[7]\n\
     .outputs number[0] number[1] number[2] some\n.names $false\n.names $true\n1\n.names $undef\n\
     .names request[7] request[6] $abc$153$new_n13_\n1- 1\n-1 1\n\
     .names request[5] request[4] $abc$153$new_n14_\n1- 1\n-1 1\n\
     .names $abc$153$new_n13_ $abc$153$new_n14_ number[2]\n1- 1\n-1 1\n\
     .names request[3] request[2] $abc$153$new_n16_\n1- 1\n-1 1\n\
     .names request[1] request[0] $abc$153$new_n17_\n1- 1\n-1 1\n\
     .names $abc$153$new_n16_ $abc$153$new_n17_ $abc$153$new_n18_\n1- 1\n-1 1\n\
     .names number[2] $abc$153$new_n18_ some\n1- 1\n-1 1\n\
     .names request[1] request[2] $abc$153$new_n20_\n10 1\n\
     .names request[3] $abc$153$new_n20_ $abc$153$new_n21_\n1- 1\n-1 1\n\
     .names request[4] $abc$153$new_n21_ $abc$153$new_n22_\n1- 1\n-0 1\n\
     .names request[5] $abc$153$new_n22_ $abc$153$new_n23_\n1- 1\n-0 1\n\
     .names request[6] $abc$153$new_n23_ $abc$153$new_n24_\n1- 1\n-0 1\n\
     .names request[7] $abc$153$new_n24_ number[0]\n1- 1\n-0 1\n\
     .names $abc$153$new_n16_ $abc$153$new_n14_ $abc$153$new_n26_\n10 1\n\
     .names $abc$153$new_n13_ $abc$153$new_n26_ number[1]\n1- 1\n-1 1\n.end\n";

const TWICE: &str = ".model twice\n.inputs a b\n.outputs a a\n.end\n";

const WIRE: &str = ".model wire\n.inputs a\n.outputs a\n.end\n";

pub(crate) const EXAMPLES: [Example; 16] = [
    Example {
        name: "adder16",
        text: ADDER16,
    },
    Example {
        name: "adder4",
        text: ADDER4,
    },
    Example {
        name: "and2",
        text: AND2,
    },
    Example {
        name: "constant",
        text: CONSTANT,
    },
    Example {
        name: "crc8",
        text: CRC8,
    },
    Example {
        name: "decoder3",
        text: DECODER3,
    },
    Example {
        name: "either",
        text: EITHER,
    },
    Example {
        name: "full_adder",
        text: FULL_ADDER,
    },
    Example {
        name: "full_adder_cells",
        text: FULL_ADDER_CELLS,
    },
    Example {
        name: "full_adder_mig",
        text: FULL_ADDER_MIG,
    },
    Example {
        name: "majority",
        text: MAJORITY,
    },
    Example {
        name: "mul4",
        text: MUL4,
    },
    Example {
        name: "popcount7",
        text: POPCOUNT7,
    },
    Example {
        name: "priority8",
        text: PRIORITY8,
    },
    Example {
        name: "twice",
        text: TWICE,
    },
    Example {
        name: "wire",
        text: WIRE,
    },
];
